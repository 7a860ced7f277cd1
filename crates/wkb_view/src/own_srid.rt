//! The SRID after a view's own code, for the geometry of any kind that holds the view.

ghost use Rattle.std.specs.Prelude.{◌≡◌};
ghost use Rattle.wkb_geom.specs.Spellings.{Spelling};
ghost use Rattle.wkb_view.specs.Prelude.{srid_of};

/// What has a code of its own, perhaps with an SRID. Users ask `Wkb::srid`.
pub trait OwnSrid {
    // How the bytes of the view spell its value.
    ghost spelled: { Self → Spelling };

    /// The SRID, where the code has that flag.
    fn srid(&self) -> Option<u32>
        ensures { result ≡ srid_of (spelled self.now) };
}
