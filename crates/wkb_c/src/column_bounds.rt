//! The bounds of a column's rows.

ghost use Rattle.std.specs.Prelude.{◌≡◌, ◌+◌, ◌<◌, ◌^◌, IfOk, IfErr};
ghost use Rattle.wkb_bounds.specs.Bounded.{BoundsFront, nothing};
ghost use Rattle.wkb_abi.specs.Classes.{FitsByte};
ghost use Rattle.wkb_abi.specs.Columns.{Reach, RowShows, RowsShow, IsRefusedWith};
ghost use Rattle.wkb_abi.specs.RowItems.{SetsRows, rows_of};

use wkb_abi::column::Column;
use wkb_abi::fault::status_of_cause;
use wkb_abi::status::OK;
use wkb_bounds::{Bounds, any_bounds_into, plain_bounds_into};

/// Writes the bounds of row i, and returns its status.
fn bound_row(column: &Column, i: usize, reach: &mut u64, found: &mut Bounds) -> u32
    requires small { i < 2 ^ 63 }
    requires before { Reach column.now i reach.old }
    ensures reach { Reach column.now (i + 1) reach.new }
    ensures row { RowShows BoundsFront nothing column.now i result found.new }
    ensures known { FitsByte result }
{
    *found = Bounds::empty();
    let row = match column.row(i, reach) {
        Ok(row) => row,
        Err(status) => return status,
    };
    if plain_bounds_into(row, found) {
        return OK;
    }
    match bounds_or_status(row, found) {
        Ok(()) => OK,
        Err(status) => status,
    }
}

/// Writes the bounds of a row by the long way, or returns the status of its error.
///
/// It isn't inlined, so that other rows don't pay for its frame.
#[inline(never)]
fn bounds_or_status(row: &[u8], found: &mut Bounds) -> Result<(), u32>
    ensures front { IfOk result (λ _. BoundsFront row.now found.new) }
    ensures refused { IfErr result (IsRefusedWith row.now) }
    ensures kept { IfErr result (λ _. found.new ≡ found.old) }
    ensures known { IfErr result FitsByte }
{
    match any_bounds_into(row, found) {
        Ok(()) => Ok(()),
        Err(refused) => Err(status_of_cause(refused.cause)),
    }
}

/// The bounds of each row of a column: a status and a box a row, that of no coordinate for a row without bounds.
///
/// The rows are those of `wkb_raw_column_check`. No row stops the others.
#[unsafe(no_mangle)]
pub extern "C" fn wkb_raw_column_bounds(
    column: &Column<'_>,
    boxes: &mut [Bounds],
    statuses: &mut [u8],
)
    ensures each { RowsShow BoundsFront nothing column.now (rows_of statuses.old boxes.old)
        statuses.new boxes.new }
    ensures lists { SetsRows statuses.old statuses.new boxes.old boxes.new }
{
    let mut reach = 0;
    for i in 0..statuses.len().min(boxes.len()) {
        statuses[i] = bound_row(column, i, &mut reach, &mut boxes[i]) as u8;
    }
}
