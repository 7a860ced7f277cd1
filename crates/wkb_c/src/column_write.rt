//! The encodings of a column's rows, one after another.

ghost use Rattle.std.specs.Prelude.{◌+◌, ◌<◌, ◌^◌};
ghost use Rattle.wkb_abi.specs.Classes.{FitsByte};
ghost use Rattle.wkb_abi.specs.Columns.{Reach};
ghost use Rattle.wkb_abi.specs.RowItems.{rows_of, AreEncodings, IsEncodingStep, KeepsRest, SetsRows, LastEndSuffices};
ghost use Rattle.wkb_abi.specs.Writings.{WritesAny};

use crate::write::{write_others, write_plain};
use wkb_abi::column::{Column, check_row};
use wkb_abi::options::{Options, request_of};
use wkb_abi::status::UNKNOWN_OPTION;
use wkb_check::check_plain;

/// Writes the encoding of each row of a column after those of the rows before it, as far as there is room: a status a
/// row, and where its encoding ends.
///
/// The rows are those of `wkb_raw_column_check`. A row without an encoding ends where it begins. No row stops the
/// others.
#[unsafe(no_mangle)]
pub extern "C" fn wkb_raw_column_write(
    column: &Column<'_>,
    options: &Options,
    out: &mut [u8],
    ends: &mut [u64],
    statuses: &mut [u8],
)
    ensures each { AreEncodings options.now column.now statuses.new ends.new out.new }
    ensures room { LastEndSuffices (rows_of statuses.old ends.old) statuses.new ends.new out.old }
    ensures out_kept { KeepsRest statuses.new ends.new out.old out.new }
    ensures lists { SetsRows statuses.old statuses.new ends.old ends.new }
{
    let mut at = 0;
    let mut reach = 0;
    for i in 0..statuses.len().min(ends.len()) {
        let (status, size) = write_wkb_row(column, i, &mut reach, options, out, at);
        at = at.saturating_add(size);
        statuses[i] = status as u8;
        ends[i] = at;
    }
}

/// Writes the encoding of row i from an index on. Returns its status, and how long its encoding is.
fn write_wkb_row(
    column: &Column,
    i: usize,
    reach: &mut u64,
    options: &Options,
    out: &mut [u8],
    start: u64,
) -> (u32, u64)
    requires small { i < 2 ^ 63 }
    requires before { Reach column.now i reach.old }
    ensures reach { Reach column.now (i + 1) reach.new }
    ensures step { IsEncodingStep options.now column.now i result start out.old out.new }
    ensures known { FitsByte result.0 }
{
    let row = match column.row(i, reach) {
        Ok(row) => row,
        Err(status) => return (status, 0),
    };
    let at = start.min(out.len() as u64) as usize;
    let mut size = 0;
    if let Some(plain) = check_plain(row) {
        let status = write_plain(row, &plain, options, &mut out[at..], &mut size);
        return (status, size);
    }
    let status = write_any_row(row, options, &mut out[at..], &mut size);
    (status, size)
}

/// Writes the encoding of a row by the long way, which collections and rejected rows need. Options that mean nothing
/// are reported whatever the row is.
///
/// It isn't inlined, so that other rows don't pay for its frame.
#[inline(never)]
fn write_any_row(row: &[u8], options: &Options, out: &mut [u8], size: &mut u64) -> u32
    ensures writes { WritesAny options.now row.now out.old out.new result size.old size.new }
    ensures known { FitsByte result }
{
    if request_of(options).is_none() {
        return UNKNOWN_OPTION;
    }
    match check_row(row) {
        Ok(found) => write_others(row, &found, options, out, size),
        Err(status) => status,
    }
}
