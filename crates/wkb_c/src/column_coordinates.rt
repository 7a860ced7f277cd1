//! The coordinates of a column's rows, in levels: a row has singles, a single has rings, a ring has coordinates.

ghost use Rattle.std.specs.Prelude.{◌≡◌, ◌+◌, ◌<◌, ◌^◌, Ok};
ghost use Rattle.wkb_abi.specs.Classes.{FitsByte};
ghost use Rattle.wkb_abi.specs.Columns.{Reach};
ghost use Rattle.wkb_geom.specs.Reading.{head_at};
ghost use Rattle.wkb_geom.specs.declared.code.WkbType.TheVariants.{Polygon, MultiPolygon};
ghost use Rattle.wkb_check.specs.Public.{DescribesFront};
ghost use Rattle.wkb_abi.specs.LevelLists.{LaysAny, LaysRow, AreLevels, TotalsSuffice, AreSameSlices};
ghost use Rattle.wkb_abi.specs.RowItems.{SetsRows};

use wkb_abi::column::Column;
use wkb_abi::fault::status_of_cause;
use wkb_abi::level_slices::{LevelSlices, has_room, lay_levels};
use wkb_abi::status::{NO_ROOM, OK, UNKNOWN_OPTION};
use wkb_abi::totals::Totals;
use wkb_check::{Piece, Summary, check, check_headed};
use wkb_geom::code::WkbType;
use wkb_geom::{Dimension, Endianness, Head};

/// Writes the levels of a row in which the check found this from the totals on, and moves the totals to their end.
/// Without room it only moves the totals. Returns the row's status.
#[inline(always)]
fn found_levels_into(
    row: &[u8],
    found: &Summary,
    asked: Dimension,
    at: &mut Totals,
    out: &mut LevelSlices<'_>,
) -> u32
    requires { DescribesFront row.now found.now }
    ensures laid { LaysAny asked row.now result at.old at.new out.old out.new }
    ensures same_slices { AreSameSlices out.old out.new }
    ensures known { FitsByte result }
{
    let first = Piece::outermost(row, found);
    let from = *at;
    *at = from.after(row, found, &first);
    if !has_room(at, asked, out) {
        return NO_ROOM;
    }
    lay_levels(row, &first, from, asked, out);
    OK
}

/// Writes the levels of a row by the long way, which collections and rejected rows need.
///
/// It isn't inlined, so that other rows don't pay for its frame.
#[inline(never)]
fn any_levels_into(row: &[u8], asked: Dimension, at: &mut Totals, out: &mut LevelSlices<'_>) -> u32
    ensures laid { LaysAny asked row.now result at.old at.new out.old out.new }
    ensures same_slices { AreSameSlices out.old out.new }
    ensures known { FitsByte result }
{
    match check(row) {
        Ok(found) => found_levels_into(row, &found, asked, at, out),
        Err(refused) => status_of_cause(refused.cause),
    }
}

/// As `any_levels_into`, of a row with this header.
#[inline(always)]
fn headed_levels_into(
    row: &[u8],
    header: Head,
    asked: Dimension,
    at: &mut Totals,
    out: &mut LevelSlices<'_>,
) -> u32
    requires { head_at row.now ≡ Ok header }
    ensures laid { LaysAny asked row.now result at.old at.new out.old out.new }
    ensures same_slices { AreSameSlices out.old out.new }
    ensures known { FitsByte result }
{
    match check_headed(header, row) {
        Some(found) => found_levels_into(row, &found, asked, at, out),
        None => any_levels_into(row, asked, at, out),
    }
}

/// As `headed_levels_into`, of a polygon. It isn't inlined, so that others don't pay for its frame. A header would be
/// one number, which is put together and taken apart.
#[inline(never)]
fn polygon_levels_into(
    row: &[u8],
    order: Endianness,
    dimension: Dimension,
    has_srid: bool,
    asked: Dimension,
    at: &mut Totals,
    out: &mut LevelSlices<'_>,
) -> u32
    requires { head_at row.now ≡ Ok (record {
      order = order;
      wkb_type = Polygon dimension;
      has_srid = has_srid;
    }) }
    ensures laid { LaysAny asked row.now result at.old at.new out.old out.new }
    ensures same_slices { AreSameSlices out.old out.new }
    ensures known { FitsByte result }
{
    let wkb_type = WkbType::Polygon(dimension);
    let header = Head {
        order,
        wkb_type,
        has_srid,
    };
    headed_levels_into(row, header, asked, at, out)
}

/// As `polygon_levels_into`, of a multi polygon.
#[inline(never)]
fn multi_polygon_levels_into(
    row: &[u8],
    order: Endianness,
    dimension: Dimension,
    has_srid: bool,
    asked: Dimension,
    at: &mut Totals,
    out: &mut LevelSlices<'_>,
) -> u32
    requires { head_at row.now ≡ Ok (record {
      order = order;
      wkb_type = MultiPolygon dimension;
      has_srid = has_srid;
    }) }
    ensures laid { LaysAny asked row.now result at.old at.new out.old out.new }
    ensures same_slices { AreSameSlices out.old out.new }
    ensures known { FitsByte result }
{
    let wkb_type = WkbType::MultiPolygon(dimension);
    let header = Head {
        order,
        wkb_type,
        has_srid,
    };
    headed_levels_into(row, header, asked, at, out)
}

/// As `headed_levels_into`, of any other kind. It isn't inlined, so that others don't pay for its frame.
#[inline(never)]
fn other_levels_into(
    row: &[u8],
    header: Head,
    asked: Dimension,
    at: &mut Totals,
    out: &mut LevelSlices<'_>,
) -> u32
    requires { head_at row.now ≡ Ok header }
    ensures laid { LaysAny asked row.now result at.old at.new out.old out.new }
    ensures same_slices { AreSameSlices out.old out.new }
    ensures known { FitsByte result }
{
    headed_levels_into(row, header, asked, at, out)
}

/// As `headed_levels_into`, with the kind known in each arm.
#[inline(always)]
fn levels_by_kind_into(
    row: &[u8],
    header: Head,
    asked: Dimension,
    at: &mut Totals,
    out: &mut LevelSlices<'_>,
) -> u32
    requires { head_at row.now ≡ Ok header }
    ensures laid { LaysAny asked row.now result at.old at.new out.old out.new }
    ensures same_slices { AreSameSlices out.old out.new }
    ensures known { FitsByte result }
{
    let order = header.order;
    let has_srid = header.has_srid;
    match header.wkb_type {
        WkbType::Point(_) => headed_levels_into(row, header, asked, at, out),
        WkbType::LineString(_) => headed_levels_into(row, header, asked, at, out),
        WkbType::Polygon(own) => polygon_levels_into(row, order, own, has_srid, asked, at, out),
        WkbType::MultiPolygon(own) => {
            multi_polygon_levels_into(row, order, own, has_srid, asked, at, out)
        }
        WkbType::GeometryCollection(_) => any_levels_into(row, asked, at, out),
        _ => other_levels_into(row, header, asked, at, out),
    }
}

/// Writes the levels of row i from the totals on, and moves the totals to their end. Without room it only moves the
/// totals. Returns the row's status.
fn row_levels_into(
    column: &Column<'_>,
    i: usize,
    reach: &mut u64,
    dimension: u32,
    at: &mut Totals,
    out: &mut LevelSlices<'_>,
) -> u32
    requires small { i < 2 ^ 63 }
    requires before { Reach column.now i reach.old }
    ensures reach { Reach column.now (i + 1) reach.new }
    ensures laid { LaysRow column.now dimension i result at.old at.new out.old out.new }
    ensures same_slices { AreSameSlices out.old out.new }
    ensures known { FitsByte result }
{
    let row = match column.row(i, reach) {
        Ok(row) => row,
        Err(status) => return status,
    };
    let Some(asked) = Dimension::of_thousands(dimension) else {
        return UNKNOWN_OPTION;
    };
    match Head::read(row) {
        Ok(header) => levels_by_kind_into(row, header, asked, at, out),
        Err(_) => any_levels_into(row, asked, at, out),
    }
}

/// Writes the coordinates of each row of a column after those of the rows before it, as far as there is room, in
/// levels: a row has singles, a single has rings, a ring has coordinates. `totals` is how many of each all rows have.
///
/// The rows are those of `wkb_raw_column_check`. The words are those that `dimension` names. No row stops the others.
#[unsafe(no_mangle)]
pub extern "C" fn wkb_raw_column_coordinates(
    column: &Column<'_>,
    dimension: u32,
    out: &mut LevelSlices<'_>,
    row_ends: &mut [u64],
    totals: &mut Totals,
    statuses: &mut [u8],
)
    ensures each { AreLevels column.now dimension statuses.new row_ends.new totals.new
        out.old out.new }
    ensures room { TotalsSuffice dimension out.old totals.new statuses.new row_ends.new }
    ensures same_slices { AreSameSlices out.old out.new }
    ensures lists { SetsRows statuses.old statuses.new row_ends.old row_ends.new }
{
    let mut at = Totals {
        coordinates: 0,
        rings: 0,
        singles: 0,
    };
    let mut reach = 0;
    for i in 0..statuses.len().min(row_ends.len()) {
        let status = row_levels_into(column, i, &mut reach, dimension, &mut at, out);
        statuses[i] = status as u8;
        row_ends[i] = at.singles;
    }
    *totals = at;
}
