//! Ordinates as numbers.

use std::alloc::Global;
use wkb::error::WkbResult;
use wkb::geom::{CoordTrait, GeometryTrait, GeometryType, LineStringTrait, ordinate};
use wkb::reader::read_wkb;

/// The greatest x of a line string; none if no x is a number, or the bytes hold something else.
pub fn greatest_x(alloc: Global, bytes: &[u8]) -> WkbResult<Option<f64>> {
    let wkb = read_wkb(alloc, bytes)?;
    let mut greatest = None;
    if let GeometryType::LineString(line) = wkb.as_type() {
        for i in 0..line.num_coords() {
            greatest = greater(greatest, ordinate(line.coord_at(i).x()));
        }
    }
    Ok(greatest)
}

/// The greater of two numbers, or the one that is there.
fn greater(a: Option<f64>, b: Option<f64>) -> Option<f64> {
    match (a, b) {
        (Some(a), Some(b)) => Some(if a < b { b } else { a }),
        (Some(a), None) => Some(a),
        (None, b) => b,
    }
}
