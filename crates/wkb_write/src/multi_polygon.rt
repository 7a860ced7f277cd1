//! A multi polygon.

ghost use Rattle.std.specs.Prelude.{◌≡◌, false, refl};
ghost use Rattle.wkb_write.specs.Prelude.{Iso, multi_polygon_meant, polygon, member_list, IsSizeOf};
ghost use Rattle.wkb_write.specs.Prelude.{WritesTo, polygon_measure};

use crate::common::*;
use crate::items::{Counted, Items, measure_items};
use crate::polygon::PolygonKind;
use wkb_geom::MultiPolygonTrait;

/// A multi polygon.
pub struct MultiPolygonKind;

#[tactic(auto, using(crate::proofs::Steps::item_laws))]
impl<M: MultiPolygonTrait> Items<M> for MultiPolygonKind {
    ghost geometry = { multi_polygon_meant M.MultiPolygonTrait };

    ghost items = { λ m.
        member_list (polygon_measure (M.dimensions m)) (polygon (M.dimensions m)) (M.polygons m) };

    ghost ITEM_HEADER = { 5 };

    const ITEM_HEADER: u8 = MEMBER_HEADER_SIZE as u8;

    ghost parts = { λ m. record { dimensions = refl; fault = refl; size = refl } };

    ghost lawful = { λ m. M.lawful m };

    fn wkb_type(geom: &M) -> WkbType {
        WkbType::MultiPolygon(dimension_to_write(geom.dim()))
    }

    fn count(geom: &M) -> u128 {
        geom.num_polygons() as u128
    }

    fn measure_item(geom: &M, i: usize) -> Measured {
        measure_items::<M::InnerPolygonType, PolygonKind>(geom.polygon(i).unwrap())
    }

    fn put_item<S: Sink>(
        out: &mut Buffered<'_, S>,
        geom: &M,
        i: usize,
        options: &WriteOptions,
    ) -> Put {
        Counted::<PolygonKind>::put(out, geom.polygon(i).unwrap(), options)
    }
}

/// The size of a MultiPolygon in ISO codes.
pub fn multi_polygon_wkb_size<M: MultiPolygonTrait>(geom: &M) -> WkbResult<usize>
    ensures size { IsSizeOf Iso (multi_polygon_meant M.MultiPolygonTrait geom.now) result }
{
    size_as::<M, Counted<MultiPolygonKind>>(geom, Form::Iso)
}

/// Writes a MultiPolygon.
pub fn write_multi_polygon<S: Sink, M: MultiPolygonTrait>(
    writer: &mut S,
    geom: &M,
    options: &WriteOptions,
) -> WkbResult<()>
    requires working { S.has_failed writer.old ≡ false }
    ensures { WritesTo S.Sink writer.old writer.new options.now
        (multi_polygon_meant M.MultiPolygonTrait geom.now) result }
{
    write_as::<S, M, Counted<MultiPolygonKind>>(writer, geom, options)
}
