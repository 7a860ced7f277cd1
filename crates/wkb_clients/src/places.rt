//! A caller's own type that is written as a point, read again and taken out.

ghost use Rattle.std.specs.Prelude.{IfOk};
ghost use Rattle.wkb_clients.specs.Places.{IsReadAgain};

use std::alloc::Global;
use wkb::error::WkbResult;
use wkb::geom::{CoordTrait, GeometryTrait, GeometryType, PointTrait};
use wkb::reader::read_wkb;
use wkb::writer::{VecSink, WriteOptions, write_point};
use wkb_cases::places::Place;

/// The words that are read again after the place is written: its own.
///
/// `None` if both are NaNs, since an empty point is written so.
pub fn round_trip(
    alloc: Global,
    place: &Place,
    options: &WriteOptions,
) -> WkbResult<Option<(u64, u64)>>
    ensures { IfOk result (IsReadAgain place.now) }
{
    let mut sink = VecSink::new(alloc);
    match write_point(&mut sink, place, options) {
        Ok(()) => {}
        Err(e) => return Err(e),
    }
    let bytes = sink.into_vec();
    let geometry = match read_wkb(alloc, bytes.as_slice()) {
        Ok(geometry) => geometry,
        Err(e) => return Err(e),
    };
    let GeometryType::Point(point) = geometry.as_type() else {
        return Ok(None);
    };
    match point.coord() {
        Some(coord) => Ok(Some(coord.x_y())),
        None => Ok(None),
    }
}
