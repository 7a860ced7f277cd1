//! Which geometries have no SRID but their own, and so are as long as they are written.

ghost use Rattle.std.specs.Prelude.{◌≡◌, ◌-◌, ◌≤◌, is_some, length};
ghost use Rattle.wkb_geom.specs.Numbers.{AreBytes};
ghost use Rattle.wkb_geom.specs.Refusals.{srid_size};
ghost use Rattle.wkb_read.specs.NoSrids.{HaveNoSrids};

use crate::geometry::{View, Wkb};
use wkb_geom::header::SRID_SIZE;

/// The number of these bytes without those of an SRID.
#[inline(always)]
pub(crate) fn size_without_srid(buf: &[u8], srid: Option<u32>) -> usize
    requires fits { srid_size (is_some srid) ≤ length buf.now }
    ensures size { result ≡ length buf.now - srid_size (is_some srid) }
    ensures bytes { AreBytes buf.now }
{
    match srid {
        Some(_) => buf.len() - SRID_SIZE,
        None => buf.len(),
    }
}

/// How many of these geometries may have an SRID, or a member with one.
pub(crate) fn count_with_srids(members: &[Wkb<'_>]) -> u32
    ensures { result ≡ 0 → HaveNoSrids members.now }
{
    let mut count = 0u32;
    for member in members {
        if member.srid().is_some() || member.may_hold_srids() {
            count = count.saturating_add(1);
        }
    }
    count
}

impl Wkb<'_> {
    ghost use Rattle.std.specs.Prelude.{◌≡◌, true, false};
    ghost use Rattle.wkb_read.specs.NoSrids.{HoldsNoSrid, tells_size};

    /// Whether it is of a kind whose members, if it has any, have no SRIDs.
    #[tactic(auto, using(crate::proofs::NoSrids::polygon_holds_none, crate::proofs::NoSrids::multi_point_holds_none))]
    #[inline(always)]
    fn is_without_srids(&self) -> bool
        ensures kind { result ≡ tells_size self.now.value }
        ensures none { result ≡ true → HoldsNoSrid self.now }
    {
        match &self.kind {
            View::Point(_) => true,
            View::LineString(_) => true,
            View::Polygon(_) => true,
            View::MultiPoint(_) => true,
            _ => false,
        }
    }

    /// Whether a member may have an SRID. What the lines and polygons of multi geometries have isn't kept.
    ///
    /// Most geometries are of the kinds that are looked for first, by one comparison.
    #[tactic(auto, using(crate::proofs::NoSrids::none_in_members))]
    #[inline(always)]
    pub(crate) fn may_hold_srids(&self) -> bool
        ensures kind { tells_size self.now.value ≡ true → result ≡ false }
        ensures none { result ≡ false → HoldsNoSrid self.now }
    {
        if self.is_without_srids() {
            return false;
        }
        match &self.kind {
            View::GeometryCollection(collection) => collection.with_srids > 0,
            _ => true,
        }
    }
}
