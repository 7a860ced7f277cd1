//! A word of a ring of a polygon in a collection at an offset in a blob: where in the blob it is, or that it has none.

ghost use Rattle.wkb.specs.Geometries.{IsItemAt};
ghost use Rattle.wkb.specs.Reads.{ring_seen};
ghost use Rattle.wkb_clients.specs.Collections.{FindsRing, FindsRingWord};

use crate::geopackage::from_offset;
use std::alloc::Global;
use wkb::error::WkbResult;
use wkb::geom::{CoordTrait, GeometryTrait, GeometryType, LineStringTrait, PolygonTrait};
use wkb::reader::{LinearRing, Polygon, Wkb, read_wkb};

/// Which word of a collection is meant, each index from 0: the member, its ring (0 is the exterior), the ring's
/// coordinate, and the word of that (0 is x).
#[derive(Clone, Copy, Debug)]
pub struct WordPath {
    pub member: usize,
    pub ring: usize,
    pub coordinate: usize,
    pub word: usize,
}

/// A ring of a polygon, the exterior first.
fn ring_at<'a>(polygon: &Polygon<'a>, ring: usize) -> Option<LinearRing<'a>>
    ensures { IsItemAt ring_seen result polygon.now.parts ring }
{
    if ring == 0 {
        polygon.exterior()
    } else {
        polygon.interior(ring - 1)
    }
}

/// A ring of the polygon that is a member of this collection, the exterior first.
///
/// None if this is no collection, the member no polygon, or one of the indices too large.
pub fn ring_of_member<'a>(geometry: &Wkb<'a>, member: usize, ring: usize) -> Option<LinearRing<'a>>
    ensures { FindsRing geometry.now member ring result }
{
    let GeometryType::GeometryCollection(members) = geometry.as_type() else {
        return None;
    };
    let Some(found) = members.get(member) else {
        return None;
    };
    let GeometryType::Polygon(polygon) = found.as_type() else {
        return None;
    };
    ring_at(polygon, ring)
}

/// The word on this path in the collection at the offset in the blob.
///
/// None if another geometry is there, or the collection has no such word. Rejected as `read_wkb` rejects the bytes
/// from the offset on.
pub fn ring_word(alloc: Global, blob: &[u8], offset: usize, at: WordPath) -> WkbResult<Option<u64>>
    ensures { FindsRingWord blob.now offset at result }
{
    let geometry = match read_wkb(alloc, from_offset(blob, offset)) {
        Ok(geometry) => geometry,
        Err(e) => return Err(e),
    };
    match ring_of_member(&geometry, at.member, at.ring) {
        Some(ring) => match ring.coord(at.coordinate) {
            Some(coord) => Ok(coord.nth(at.word)),
            None => Ok(None),
        },
        None => Ok(None),
    }
}
