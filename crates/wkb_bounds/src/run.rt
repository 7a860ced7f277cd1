//! Coordinates one after another.

ghost use Rattle.std.specs.Prelude.{◌*◌, ◌≤◌, length};

use wkb_geom::Endianness;
use wkb_geom::words::{WORD_SIZE, rest_from, u64_at};

/// So many coordinates of one order and size, from the start of the bytes on. What is inlined takes one: else it would
/// be in memory (docs/COST.md).
#[derive(Clone, Copy)]
pub(crate) struct Run<'a> {
    pub(crate) order: Endianness,
    pub(crate) size: usize,
    pub(crate) count: u32,
    pub(crate) bytes: &'a [u8],
    ghost whole: { size * count ≤ length bytes.now },
}

impl<'a> Run<'a> {
    ghost use Rattle.std.specs.Prelude.{◌≡◌, ◌*◌, ◌/◌, ◌<◌, ◌≤◌, length};
    ghost use Rattle.wkb_bounds.specs.Runs.{IsRun, IsBehindFirst, first_word};

    #[inline(always)]
    pub(crate) fn of(order: Endianness, size: usize, count: u32, bytes: &'a [u8]) -> Run<'a>
        requires { size * count ≤ length bytes.now }
        ensures { IsRun order size count bytes.now result }
    {
        Run {
            order,
            size,
            count,
            bytes,
        }
    }

    /// Word `k` of the first coordinate.
    #[tactic(auto, using(crate::proofs::Runs::word_there))]
    #[inline(always)]
    pub(crate) fn first_word(self, k: usize) -> u64
        requires some { 0 < self.count }
        requires there { k < self.size / 8 }
        ensures { result ≡ first_word k self.entry }
    {
        u64_at(self.bytes, WORD_SIZE * k, self.order)
    }

    /// The coordinates behind the first.
    #[tactic(auto, using(crate::proofs::Runs::first_there))]
    #[inline(always)]
    pub(crate) fn behind_first(self) -> Run<'a>
        requires { 0 < self.count }
        ensures { IsBehindFirst self.entry result }
    {
        Run {
            order: self.order,
            size: self.size,
            count: self.count - 1,
            bytes: rest_from(self.bytes, self.size),
        }
    }
}
