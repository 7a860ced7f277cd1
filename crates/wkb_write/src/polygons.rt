//! Polygons that are made when they are asked for, written as a multi polygon.
//!
//! `MultiPolygonTrait` lends its polygons, so each has to stand in memory. These needn't.

ghost use Rattle.std.specs.Prelude.{◌≡◌, ◌<◌, ℕ, List, Some, length, refl, slice_get};
ghost use Rattle.std.specs.List.{AllByRecursion};
ghost use Rattle.wkb_geom.specs.Geometries.{AreCoordinates};
ghost use Rattle.wkb_write.specs.Prelude.{multi_polygon, multi_polygon_meant, polygon, polygon_measure};
ghost use Rattle.wkb_write.specs.Prelude.{IsSizeOf, WritesToSlice, member_list};

use crate::common::*;
use crate::items::{Counted, Items, measure_items};
use crate::polygon::PolygonKind;
use crate::slice::slice_as;
use wkb_geom::PolygonTrait;

/// Polygons of one dimension, each made when it is asked for.
pub trait MadePolygons: Dimensioned {
    type MadePolygon: PolygonTrait;

    // The rings of each polygon, in order.
    ghost polygons: { Self → List (List (List (List ℕ))) };

    /// The number of polygons.
    fn num_polygons(&self) -> usize
        ensures { result ≡ length (polygons self.now) };

    /// The polygon at an index that is known to be there.
    fn polygon_at(&self, i: usize) -> Self::MadePolygon
        requires { i < length (polygons self.now) }
        ensures value { slice_get (polygons self.now) i ≡ Some (Self.MadePolygon.rings result) }
        ensures dimensions { Self.MadePolygon.dimensions result ≡ Self.dimensions self.now };

    ghost lawful: { (m : Self)
        → AllByRecursion (AllByRecursion (AreCoordinates (Self.dimensions m))) (polygons m) };
}

/// A multi polygon of such polygons.
pub struct MadePolygonsKind;

#[tactic(auto, using(crate::proofs::Steps::item_laws))]
impl<M: MadePolygons> Items<M> for MadePolygonsKind {
    ghost geometry = { λ m. multi_polygon (M.dimensions m) (M.polygons m) };

    ghost items = { λ m.
        member_list (polygon_measure (M.dimensions m)) (polygon (M.dimensions m)) (M.polygons m) };

    ghost ITEM_HEADER = { 5 };

    const ITEM_HEADER: u8 = MEMBER_HEADER_SIZE as u8;

    ghost parts = { λ m. record { dimensions = refl; fault = refl; size = refl } };

    ghost lawful = { λ m. M.lawful m };

    fn wkb_type(geom: &M) -> WkbType {
        WkbType::MultiPolygon(dimension_to_write(geom.dim()))
    }

    fn count(geom: &M) -> u128 {
        geom.num_polygons() as u128
    }

    fn measure_item(geom: &M, i: usize) -> Measured {
        measure_items::<M::MadePolygon, PolygonKind>(&geom.polygon_at(i))
    }

    fn put_item<S: Sink>(
        out: &mut Buffered<'_, S>,
        geom: &M,
        i: usize,
        options: &WriteOptions,
    ) -> Put {
        Counted::<PolygonKind>::put(out, &geom.polygon_at(i), options)
    }
}

/// The size of made polygons as a MultiPolygon, under the options.
pub fn made_polygons_wkb_size_with<M: MadePolygons>(
    geom: &M,
    options: &WriteOptions,
) -> WkbResult<usize>
    ensures size { IsSizeOf options.now.form
        (multi_polygon_meant M.MadePolygons geom.now) result }
{
    size_as::<M, Counted<MadePolygonsKind>>(geom, options.form)
}

/// Writes made polygons as a MultiPolygon to the front of a slice, as `write_to_slice` writes other geometries.
pub fn write_made_polygons_to_slice<M: MadePolygons>(
    geom: &M,
    options: &WriteOptions,
    out: &mut [u8],
) -> WkbResult<usize>
    ensures { WritesToSlice options.now (multi_polygon_meant M.MadePolygons geom.now)
        out.old out.new result }
{
    slice_as::<M, Counted<MadePolygonsKind>>(geom, options, out)
}
