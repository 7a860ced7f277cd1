//! The first lines of a user: read, look at the kind, ask a ring.

use std::alloc::Global;
use wkb::error::WkbResult;
use wkb::geom::{GeometryTrait, GeometryType, LineStringTrait, PolygonTrait};
use wkb::reader::read_wkb;

/// How many coordinates the exterior of a polygon has; none if the bytes hold something else.
pub fn corners(alloc: Global, bytes: &[u8]) -> WkbResult<Option<usize>> {
    let wkb = read_wkb(alloc, bytes)?;
    match wkb.as_type() {
        GeometryType::Polygon(polygon) => match polygon.exterior() {
            Some(ring) => Ok(Some(ring.num_coords())),
            None => Ok(Some(0)),
        },
        _ => Ok(None),
    }
}
