//! Rows of a column of coordinates, as GeoArrow has them: `Levels::row` for one after another, with the floor that it
//! moves.

ghost use Rattle.std.specs.Prelude.{◌<◌, ◌+◌, length, IfOk};
ghost use Rattle.wkb.specs.Prelude.traits.{Xy};
ghost use Rattle.wkb.specs.Levels.{ends_of, IsFloor};
ghost use Rattle.wkb.specs.Levels.column_kinds.{Polygon};
ghost use Rattle.wkb_clients.specs.Columns.{FindsRowEncoding};

use std::alloc::Global;
use wkb::error::WkbResult;
use wkb::geom::Dimensions;
use wkb::geom::levels::{Kind, Levels, Place, Row};
use wkb::writer::{WriteOptions, to_vec};

/// The encoding of row i of a column of polygons. None if the row's levels fall, pass the next level's end, begin
/// before an earlier row's end, or hold no single polygon.
///
/// Rows are asked for in turn, from `Place::front` on.
pub fn polygon_of_row(
    alloc: Global,
    levels: &Levels,
    i: usize,
    floor: &mut Place,
    options: &WriteOptions,
) -> WkbResult<Option<Vec<u8>>>
    requires index { i < length (ends_of levels.now.row_ends) }
    requires floor { IsFloor levels.now Xy i floor.old }
    ensures row { IfOk result (FindsRowEncoding levels.now Polygon Xy options.now i) }
    ensures floor { IsFloor levels.now Xy (i + 1) floor.new }
{
    match levels.row(Kind::Polygon, Dimensions::Xy, i, floor) {
        Some(Row::Single(polygon)) => Ok(Some(to_vec(alloc, &polygon, options)?)),
        Some(Row::MultiPolygon(_)) => unreachable!(),
        None => Ok(None),
    }
}
