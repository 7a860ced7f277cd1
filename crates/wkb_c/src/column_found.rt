//! What the check finds in a column's rows.

ghost use Rattle.std.specs.Prelude.{◌+◌, ◌<◌, ◌^◌, ℕ};
ghost use Rattle.wkb_abi.specs.Classes.{FitsByte};
ghost use Rattle.wkb_abi.specs.Checks.{IsFound, all_zeros};
ghost use Rattle.wkb_abi.specs.Columns.{Reach, IsRow, RowShows, RowsShow, AreStatuses};
ghost use Rattle.wkb_abi.specs.RowItems.{SetsRows, rows_of};
ghost use Rattle.wkb_abi.specs.declared.column.Column.{Column};

use wkb_abi::column::{Column, check_row};
use wkb_abi::found::{Found, NOTHING_FOUND, found_of};
use wkb_abi::status::OK;
use wkb_check::check_plain;

/// Lays what the check finds of row i, and returns its status.
fn find_row(column: &Column, i: usize, reach: &mut u64, found: &mut Found) -> u32
    requires small { i < 2 ^ 63 }
    requires before { Reach column.now i reach.old }
    ensures reach { Reach column.now (i + 1) reach.new }
    ensures found { RowShows IsFound all_zeros column.now i result found.new }
    ensures known { FitsByte result }
{
    let row = match column.row(i, reach) {
        Ok(row) => row,
        Err(status) => {
            *found = NOTHING_FOUND;
            return status;
        }
    };
    match check_plain(row) {
        Some(plain) => {
            *found = found_of(row, &plain);
            OK
        }
        None => find_any(row, found),
    }
}

/// Lays what the check finds of a row by the long way, and returns its status.
///
/// It isn't inlined, so that other rows don't pay for its frame.
#[inline(never)]
fn find_any(row: &[u8], found: &mut Found) -> u32
    ensures found { (column : Column) → (i : ℕ) → IsRow column i row.now
        → RowShows IsFound all_zeros column i result found.new }
    ensures known { FitsByte result }
{
    match check_row(row) {
        Ok(in_row) => {
            *found = found_of(row, &in_row);
            OK
        }
        Err(status) => {
            *found = NOTHING_FOUND;
            status
        }
    }
}

/// What the check finds in each row of a column: a status and an entry a row, all zeros for a row without a geometry.
///
/// The rows and their statuses are those of `wkb_raw_column_check`. No row stops the others.
#[unsafe(no_mangle)]
pub extern "C" fn wkb_raw_column_found(
    column: &Column<'_>,
    found: &mut [Found],
    statuses: &mut [u8],
)
    ensures each { RowsShow IsFound all_zeros column.now (rows_of statuses.old found.old)
        statuses.new found.new }
    ensures checked { AreStatuses column.now (rows_of statuses.old found.old) statuses.new }
    ensures lists { SetsRows statuses.old statuses.new found.old found.new }
{
    let mut reach = 0;
    for i in 0..statuses.len().min(found.len()) {
        statuses[i] = find_row(column, i, &mut reach, &mut found[i]) as u8;
    }
}
