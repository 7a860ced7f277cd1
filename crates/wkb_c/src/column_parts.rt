//! The tables of parts of a column's rows, one after another.

ghost use Rattle.std.specs.Prelude.{◌+◌, ◌<◌, ◌^◌};
ghost use Rattle.wkb_abi.specs.Classes.{FitsByte};
ghost use Rattle.wkb_abi.specs.Columns.{Reach};
ghost use Rattle.wkb_abi.specs.RowItems.{rows_of, AreTables, IsTableStep, KeepsRest, SetsRows, LastEndSuffices};

use crate::parts::list_parts;
use wkb_abi::column::{Column, check_row};
use wkb_abi::parts::Part;
use wkb_check::check_plain;

/// Lists the parts of each row of a column after those of the rows before it, as far as there is room: a status a row,
/// and where its parts end.
///
/// The rows are those of `wkb_raw_column_check`. A row without parts ends where it begins. No row stops the others.
#[unsafe(no_mangle)]
pub extern "C" fn wkb_raw_column_parts(
    column: &Column<'_>,
    parts: &mut [Part],
    ends: &mut [u64],
    statuses: &mut [u8],
)
    ensures each { AreTables column.now statuses.new ends.new parts.new }
    ensures room { LastEndSuffices (rows_of statuses.old ends.old) statuses.new ends.new parts.old }
    ensures parts_kept { KeepsRest statuses.new ends.new parts.old parts.new }
    ensures lists { SetsRows statuses.old statuses.new ends.old ends.new }
{
    let mut at = 0;
    let mut reach = 0;
    for i in 0..statuses.len().min(ends.len()) {
        let (status, count) = list_row(column, i, &mut reach, parts, at);
        at = at.saturating_add(count);
        statuses[i] = status as u8;
        ends[i] = at;
    }
}

/// Lists the parts of row i from an index on. Returns its status, and how many parts it has.
fn list_row(
    column: &Column,
    i: usize,
    reach: &mut u64,
    parts: &mut [Part],
    start: u64,
) -> (u32, u64)
    requires small { i < 2 ^ 63 }
    requires before { Reach column.now i reach.old }
    ensures reach { Reach column.now (i + 1) reach.new }
    ensures step { IsTableStep column.now i result start parts.old parts.new }
    ensures known { FitsByte result.0 }
{
    let row = match column.row(i, reach) {
        Ok(row) => row,
        Err(status) => return (status, 0),
    };
    let at = start.min(parts.len() as u64) as usize;
    let mut count = 0;
    if let Some(plain) = check_plain(row) {
        let status = list_parts(row, &plain, &mut parts[at..], &mut count);
        return (status, count);
    }
    let found = match check_row(row) {
        Ok(found) => found,
        Err(status) => return (status, 0),
    };
    let status = list_parts(row, &found, &mut parts[at..], &mut count);
    (status, count)
}
