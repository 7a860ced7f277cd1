//! Whether a geometry in memory is as it is written.

ghost use Rattle.std.specs.Prelude.{◌≡◌, true};
ghost use Rattle.wkb_geom.specs.Reading.{Item};
ghost use Rattle.wkb_view.specs.BytesAsWritten.{IsSpelledAsWritten, IsFlagsOf};

use wkb_geom::{Endianness, Form};

/// A geometry in memory that may be there as it is written. Users ask `GeometryTrait::as_written`.
pub trait AsWritten {
    // The geometry: its bytes, how they spell it, and its value.
    ghost seen: { Self → Item };

    /// Whether its bytes are known to be its encoding in this order, with EWKB's flags or without, and with no SRID.
    ///
    /// False if a point is empty, and where there is an SRID. Order and flags are passed on to the members in
    /// registers, which a `Form` isn't.
    fn is_as_written(&self, order: Endianness, has_flags: bool) -> bool
        ensures { result ≡ true → IsSpelledAsWritten order has_flags (seen self.now) };
}

/// Whether a form's codes have EWKB's flags; none if it has an SRID.
#[inline(always)]
pub fn flags_without_srid(form: Form) -> Option<bool>
    ensures { IsFlagsOf form result }
{
    match form {
        Form::Iso => Some(false),
        Form::Ewkb { srid: None } => Some(true),
        Form::Ewkb { srid: Some(_) } => None,
    }
}
