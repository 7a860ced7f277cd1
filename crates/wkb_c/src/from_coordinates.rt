//! The encodings of rows that are given in levels.

ghost use Rattle.std.specs.Prelude.{◌≡◌, ◌+◌, ◌<◌, ◌==◌, length, Some, None, if◌then◌else◌};
ghost use Rattle.wkb_abi.specs.Classes.{FitsByte};
ghost use Rattle.wkb_abi.specs.LevelRows.{EncodeLevels, IsLevelStep, level_rows};
ghost use Rattle.wkb_abi.specs.LevelRows.{LastLevelEndSuffices, KeepsLevelRest};
ghost use Rattle.wkb_abi.specs.LevelTargets.{kind_named, levels_in, target_asked, Ready};
ghost use Rattle.wkb_abi.specs.RowItems.{AreSet};
ghost use Rattle.wkb_levels.specs.declared.ends.Ends.TheVariants.{Each, At};
ghost use Rattle.wkb_levels.specs.EndLists.{ends_of};

use crate::write::options_for;
use wkb_abi::column::is_unset;
use wkb_abi::level_column::{LevelColumn, LevelTarget};
use wkb_abi::options::{Options, request_of};
use wkb_abi::status::{BAD_LEVELS, NO_ROOM, NULL_ROW, OK, UNKNOWN_OPTION};
use wkb_geom::code::{LINE_STRING, MULTI_LINE_STRING, MULTI_POINT, MULTI_POLYGON, POINT, POLYGON};
use wkb_geom::{Dimension, Dimensions};
use wkb_levels::{Ends, Kind, Levels, Place, Written};

/// Ends, or as many items of one each.
fn ends_or_ones<'a>(ends: &'a [u64], count: u64) -> Ends<'a>
    ensures { result ≡ (if length ends.now == 0 then Each 0 count else At 0 ends.entry) }
{
    if ends.is_empty() {
        Ends::Each { from: 0, to: count }
    } else {
        Ends::At { start: 0, ends }
    }
}

/// The levels of a column.
fn levels_of_column<'a>(column: &LevelColumn<'a>) -> Levels<'a>
    ensures { result ≡ levels_in column.now }
{
    Levels {
        words: column.words,
        ring_ends: ends_or_ones(column.ring_ends, column.rings),
        single_ends: ends_or_ones(column.single_ends, column.singles),
        row_ends: ends_or_ones(column.row_ends, column.rows),
    }
}

/// The kind of this number, if rows in levels can have it.
fn kind_of_number(number: u32) -> Option<Kind>
    ensures { result ≡ kind_named number }
{
    match number {
        POINT => Some(Kind::Point),
        LINE_STRING => Some(Kind::LineString),
        POLYGON => Some(Kind::Polygon),
        MULTI_POINT => Some(Kind::MultiPoint),
        MULTI_LINE_STRING => Some(Kind::MultiLineString),
        MULTI_POLYGON => Some(Kind::MultiPolygon),
        _ => None,
    }
}

/// What the numbers ask for, if they mean something.
fn target_of_numbers(kind: u32, dimension: u32, options: &Options) -> Option<LevelTarget>
    ensures { result ≡ target_asked kind dimension options.now }
{
    let kind = kind_of_number(kind)?;
    let dimension = Dimension::of_thousands(dimension)?;
    let request = request_of(options)?;
    Some(LevelTarget {
        kind,
        dim: Dimensions::from(dimension),
        // Levels have no SRID of their own.
        options: options_for(request, None),
    })
}

/// Writes row i from an index on. Returns its status, and how long its encoding is. `floor` works as in `Levels::row`.
fn write_level_row(
    column: &LevelColumn<'_>,
    levels: &Levels<'_>,
    target: &Option<LevelTarget>,
    i: usize,
    floor: &mut Place,
    out: &mut [u8],
    start: u64,
) -> (u32, u64)
    requires levels { levels.now ≡ levels_in column.now }
    requires index { i < length (ends_of (levels_in column.now).row_ends) }
    requires before { Ready column.now target.now i floor.old }
    ensures ready { Ready column.now target.now (i + 1) floor.new }
    ensures step { IsLevelStep column.now target.now i result start out.old out.new }
    ensures known { FitsByte result.0 }
{
    let null = is_unset(column.validity, column.validity_offset, i);
    let Some(target) = target else {
        return (if null { NULL_ROW } else { UNKNOWN_OPTION }, 0);
    };
    if null {
        levels.pass(target.dim, i, floor);
        return (NULL_ROW, 0);
    }
    let at = start.min(out.len() as u64) as usize;
    let rest = &mut out[at..];
    match levels.write_row(target.kind, target.dim, &target.options, i, floor, rest) {
        Written::Whole(size) => (OK, size as u64),
        Written::LacksRoom(size) => (NO_ROOM, size as u64),
        Written::Unfit => (BAD_LEVELS, 0),
    }
}

/// Writes the encoding of each row of a column in levels, as one kind and dimension, after those of the rows before it,
/// as far as there is room: a status a row, and where its encoding ends.
///
/// A row without an encoding ends where it begins. No row stops the others.
#[unsafe(no_mangle)]
pub extern "C" fn wkb_raw_column_from_coordinates(
    column: &LevelColumn<'_>,
    kind: u32,
    dimension: u32,
    options: &Options,
    out: &mut [u8],
    ends: &mut [u64],
    statuses: &mut [u8],
)
    ensures each { EncodeLevels kind dimension options.now column.now
        statuses.new ends.new out.new }
    ensures room { LastLevelEndSuffices column.now statuses.new ends.new out.old }
    ensures out_kept { KeepsLevelRest column.now statuses.new ends.new out.old out.new }
    ensures lists { AreSet (level_rows column.now statuses.old ends.old)
        statuses.old statuses.new ends.old ends.new }
{
    let target = target_of_numbers(kind, dimension, options);
    let levels = levels_of_column(column);
    let rows = levels.row_ends.len();
    let mut at = 0;
    let mut floor = Place::front();
    for i in 0..statuses.len().min(ends.len()).min(rows) {
        let (status, size) = write_level_row(column, &levels, &target, i, &mut floor, out, at);
        at = at.saturating_add(size);
        statuses[i] = status as u8;
        ends[i] = at;
    }
}
