//! The statuses of a column's rows.

ghost use Rattle.std.specs.Prelude.{◌≡◌, ◌+◌, ◌*◌, ◌<◌, ◌≤◌, ◌^◌, length};
ghost use Rattle.wkb_abi.specs.Classes.{FitsByte};
ghost use Rattle.wkb_abi.specs.Columns.{Reach, IsStatusOfRow, AreStatuses};

use wkb_abi::column::{Column, found_in};
use wkb_abi::status::OK;

/// Whether a geometry is at the start of each row of a column: a status a row.
///
/// Row i has the bytes from offset i up to offset i + 1. An offset is a signed little-endian number of `offset_size`
/// bytes, 4 or 8. A row is null if bit `validity_offset + i` of `validity` is 0. No row stops the others.
#[unsafe(no_mangle)]
pub extern "C" fn wkb_raw_column_check(column: &Column<'_>, statuses: &mut [u8])
    ensures each { AreStatuses column.now (length statuses.old) statuses.new }
    ensures as_many { length statuses.new ≡ length statuses.old }
{
    let mut reach = 0;
    for i in 0..statuses.len() {
        statuses[i] = status_of_row(column, i, &mut reach) as u8;
    }
}

/// The status of row i.
fn status_of_row(column: &Column, i: usize, reach: &mut u64) -> u32
    requires small { i < 2 ^ 63 }
    requires before { Reach column.now i reach.old }
    ensures reach { Reach column.now (i + 1) reach.new }
    ensures status { IsStatusOfRow column.now i result }
    ensures known { FitsByte result }
{
    match column.row(i, reach) {
        Ok(row) => match found_in(row) {
            Ok(_found) => OK,
            Err(status) => status,
        },
        Err(status) => status,
    }
}
