//! The bytes that views of a multi polygon, of its polygons and of their rings return, in place: one member begins
//! where the one before ends, and a word is at an offset that the sizes before it tell.

ghost use Rattle.std.specs.Prelude.{IfSome};
ghost use Rattle.wkb.specs.Reads.{multi_polygon_seen};
ghost use Rattle.wkb_clients.specs.Members.{LendsMember, AreNeighbours, IsCornerWord};

use wkb::geom::{CoordTrait, LineStringTrait, MultiPolygonTrait, PolygonTrait};
use wkb::reader::MultiPolygon;

/// The bytes of a polygon of a multi polygon, if there is one of this index: at its place in those of the multi
/// polygon.
fn polygon_bytes<'a>(multi: &MultiPolygon<'a>, i: usize) -> Option<&'a [u8]>
    ensures { IfSome result (λ bytes. LendsMember (multi_polygon_seen multi.now) i bytes.now) }
{
    multi.buf();
    match multi.polygon(i) {
        Some(polygon) => Some(polygon.buf()),
        None => None,
    }
}

/// The bytes of a polygon of a multi polygon and those of the next one, if both are there: the next begins where the
/// first ends.
pub fn neighbour_bytes<'a>(multi: &MultiPolygon<'a>, i: u32) -> Option<(&'a [u8], &'a [u8])>
    ensures { IfSome result (AreNeighbours (multi_polygon_seen multi.now) i) }
{
    multi.buf();
    let i = i as usize;
    let Some(polygon) = multi.polygon(i) else {
        return None;
    };
    let bytes = polygon.buf();
    match polygon_bytes(multi, i + 1) {
        Some(next) => Some((bytes, next)),
        None => None,
    }
}

/// A word of a coordinate of the exterior of a polygon of a multi polygon, if there is one: it is in the bytes of
/// the multi polygon, at an offset that the sizes of what is before it tell.
pub fn corner_word(
    multi: &MultiPolygon,
    member: usize,
    coordinate: usize,
    word: usize,
) -> Option<u64>
    ensures { IfSome result (IsCornerWord (multi_polygon_seen multi.now) member coordinate word) }
{
    multi.buf();
    let Some(polygon) = multi.polygon(member) else {
        return None;
    };
    polygon.buf();
    let Some(ring) = polygon.exterior() else {
        return None;
    };
    let _coordinates = ring.coords_slice();
    let Some(coord) = ring.coord(coordinate) else {
        return None;
    };
    let Some(word) = coord.nth(word) else {
        return None;
    };
    Some(word)
}
