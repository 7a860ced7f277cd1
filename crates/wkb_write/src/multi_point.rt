//! A multi point.

ghost use Rattle.std.specs.Prelude.{◌≡◌, false, refl};
ghost use Rattle.wkb_write.specs.Prelude.{Iso, multi_point_meant, point, member_list, IsSizeOf};
ghost use Rattle.wkb_write.specs.Prelude.{WritesTo, point_measure};

use crate::common::*;
use crate::fixed::AtOnce;
use crate::items::{Counted, Items};
use crate::point::PointKind;
use wkb_geom::MultiPointTrait;

/// A multi point.
pub struct MultiPointKind;

#[tactic(auto, using(crate::proofs::Steps::item_laws))]
impl<M: MultiPointTrait> Items<M> for MultiPointKind {
    ghost geometry = { multi_point_meant M.MultiPointTrait };

    ghost items = { λ m.
        member_list (point_measure (M.dimensions m)) (point (M.dimensions m)) (M.points m) };

    ghost ITEM_HEADER = { 5 };

    const ITEM_HEADER: u8 = MEMBER_HEADER_SIZE as u8;

    ghost parts = { λ m. record { dimensions = refl; fault = refl; size = refl } };

    ghost lawful = { λ m. M.lawful m };

    fn wkb_type(geom: &M) -> WkbType {
        WkbType::MultiPoint(dimension_to_write(geom.dim()))
    }

    fn count(geom: &M) -> u128 {
        geom.num_points() as u128
    }

    // All points are of one size, so the compiler replaces the loop by a product.
    #[inline(always)]
    fn measure_item(geom: &M, _i: usize) -> Measured {
        Measured::Bytes(words_size(geom.dim(), 1))
    }

    fn put_item<S: Sink>(
        out: &mut Buffered<'_, S>,
        geom: &M,
        i: usize,
        options: &WriteOptions,
    ) -> Put {
        AtOnce::<PointKind>::put(out, &geom.point(i).unwrap(), options)
    }
}

/// The size of a MultiPoint in ISO codes.
pub fn multi_point_wkb_size<M: MultiPointTrait>(geom: &M) -> WkbResult<usize>
    ensures size { IsSizeOf Iso (multi_point_meant M.MultiPointTrait geom.now) result }
{
    size_as::<M, Counted<MultiPointKind>>(geom, Form::Iso)
}

/// Writes a MultiPoint.
pub fn write_multi_point<S: Sink, M: MultiPointTrait>(
    writer: &mut S,
    geom: &M,
    options: &WriteOptions,
) -> WkbResult<()>
    requires working { S.has_failed writer.old ≡ false }
    ensures { WritesTo S.Sink writer.old writer.new options.now
        (multi_point_meant M.MultiPointTrait geom.now) result }
{
    write_as::<S, M, Counted<MultiPointKind>>(writer, geom, options)
}
