//! A row's encoding in a slice.

ghost use Rattle.std.specs.Prelude.{◌<◌, ◌+◌, length};
ghost use Rattle.wkb_levels.specs.Columns.{IsFloor};
ghost use Rattle.wkb_levels.specs.EndLists.{ends_of};

use crate::levels::{Levels, Place};
use crate::row::Kind;
use wkb_geom::Dimensions;
use wkb_write::WriteOptions;

/// What became of a row.
#[derive(Debug, Clone, Copy, PartialEq)]
pub enum Written {
    /// Its encoding is at the start of the slice, and has this many bytes.
    Whole(usize),
    /// The slice is shorter than its encoding, which has this many bytes.
    LacksRoom(usize),
    /// Its levels don't fit, or a count is 2^32 or more.
    Unfit,
}

#[tactic(auto, using(crate::proofs::RowWrites::write_laws))]
impl<'w> Levels<'w> {
    ghost use Rattle.wkb_levels.specs.RowWrites.{IsRowWrite};

    /// Writes the encoding of row i to the front of a slice, which otherwise stays as it was. The floor is as of `row`.
    pub fn write_row(
        &self,
        kind: Kind,
        dim: Dimensions,
        options: &WriteOptions,
        i: usize,
        floor: &mut Place,
        out: &mut [u8],
    ) -> Written
        requires index { i < length (ends_of self.now.row_ends) }
        requires floor { IsFloor self.now dim i floor.old }
        ensures written { IsRowWrite self.now kind dim options.now i out.old out.new result }
        ensures floor { IsFloor self.now dim (i + 1) floor.new }
    {
        let Some(row) = self.row(kind, dim, i, floor) else {
            return Written::Unfit;
        };
        match row.write(options, out) {
            Ok(size) => Written::Whole(size),
            Err(_) => match row.size(options) {
                Ok(size) => Written::LacksRoom(size),
                Err(_) => Written::Unfit,
            },
        }
    }
}
