//! The rows of a column, one after another.

ghost use Rattle.std.specs.Prelude.{◌≡◌, ◌-◌, length};
ghost use Rattle.std.specs.Iterator.{at_most};
ghost use Rattle.wkb_levels.specs.Columns.{IsFloor};
ghost use Rattle.wkb_levels.specs.EndLists.{ends_of};

use crate::levels::{Levels, Place};
use crate::row::{Kind, Row};
use wkb_geom::Dimensions;

/// The rows of levels that are still to come, as geometries of one kind and dimension. In Rust, `Rows` of the
/// module `columns` is a copy of rows of bytes.
#[derive(Debug, Clone, Copy)]
pub struct Rows<'w> {
    levels: Levels<'w>,
    kind: Kind,
    dim: Dimensions,
    at: usize,
    end: usize,
    floor: Place,
    ghost all: { end ≡ length (ends_of levels.row_ends) },
    ghost is_floor: { IsFloor levels dim at floor },
}

impl<'w> Levels<'w> {
    ghost use Rattle.wkb_levels.specs.RowsLeft.{AreAllRows};

    /// Its rows one after another, as geometries of the kind and dimension: each as `row` finds it, or none.
    pub fn rows(&self, kind: Kind, dim: Dimensions) -> Rows<'w>
        ensures { AreAllRows self.now kind dim result }
    {
        Rows {
            levels: *self,
            kind,
            dim,
            at: 0,
            end: self.row_ends.len(),
            floor: Place::front(),
        }
    }
}

impl<'w> Iterator for Rows<'w> {
    ghost use Rattle.wkb_levels.specs.RowsLeft.{GivesRow};

    type Item = Option<Row<'w>>;

    ghost next_gives = { GivesRow };

    ghost remaining = { λ s. at_most (s.end - s.at) };

    fn next(&mut self) -> Option<Option<Row<'w>>> {
        if self.at >= self.end {
            return None;
        }
        let mut floor = self.floor;
        let row = self.levels.row(self.kind, self.dim, self.at, &mut floor);
        *self = Rows {
            levels: self.levels,
            kind: self.kind,
            dim: self.dim,
            at: self.at + 1,
            end: self.end,
            floor,
        };
        Some(row)
    }
}
