//! Ranges while they are widened.

ghost use Rattle.std.specs.Prelude.{◌≡◌, ◌+◌, ◌*◌, ◌/◌, ◌<◌, ◌≤◌, ◌^◌, length, IfSome, Some};
ghost use Rattle.wkb_bounds.specs.Extremes.{turned as turned_of, range_by, CountsAhead, CountsWord};
ghost use Rattle.wkb_bounds.specs.Extremes.{WidensRange};
ghost use Rattle.wkb_bounds.specs.Ordinates.{words_at};
ghost use Rattle.wkb_bounds.specs.Ranges.{no_numbers};
ghost use Rattle.wkb_bounds.specs.Runs.{run_coordinates, rows};

use crate::range::{INFINITY, MINUS_INFINITY, Range};
use crate::run::Run;
use wkb_geom::words::{SIGN, is_nan};
use wkb_geom::{Endianness, by_order};

/// The word with its sign turned, so that negative numbers are below others.
#[inline(always)]
fn turned(word: u64) -> u64
    ensures { result ≡ turned_of word }
{
    word ^ SIGN
}

/// What some words say of their range. Words with a sign are above others, and the higher, the less their number. So the
/// least number is the highest word, if it has a sign, or else the lowest. The greatest number is the highest word
/// without a sign, or else the lowest word.
#[derive(Clone, Copy)]
pub(crate) struct Extremes {
    lowest: u64,
    highest: u64,
    /// The highest word in two's complement, where those with a sign are below others.
    highest_turned: u64,
    /// How many numbers there are, if all words to come are numbers.
    count: u64,
}

impl Extremes {
    /// Those of no word.
    #[inline(always)]
    pub(crate) fn none() -> Extremes
        ensures { range_by 0 result ≡ no_numbers }
    {
        Extremes {
            lowest: MINUS_INFINITY,
            highest: 0,
            highest_turned: SIGN,
            count: 0,
        }
    }

    /// The range of the words.
    #[inline(always)]
    pub(crate) fn range(self) -> Range
        ensures { result ≡ range_by 0 self }
    {
        Range {
            least: if self.highest < SIGN {
                self.lowest.min(INFINITY)
            } else {
                self.highest
            },
            greatest: if self.highest_turned < SIGN {
                self.highest_turned
            } else {
                self.lowest.max(SIGN)
            },
            count: self.count,
        }
    }

    /// Counts so many words before they come, since to count each costs an instruction.
    #[inline(always)]
    pub(crate) fn counting(self, words: u32) -> Extremes
        requires { self.count + words < 2 ^ 64 }
        ensures { CountsAhead self result words }
    {
        Extremes {
            count: self.count + words as u64,
            ..self
        }
    }

    /// Widens the range by a word that was counted. If it is a NaN, it is taken off the count.
    #[tactic(auto, using(crate::proofs::Ranking::extremes))]
    #[inline(always)]
    pub(crate) fn with(self, word: u64) -> Extremes
        requires { 0 < self.count }
        ensures { CountsWord self result word }
    {
        if is_nan(word) {
            return Extremes {
                count: self.count - 1,
                ..self
            };
        }
        Extremes {
            lowest: self.lowest.min(word),
            highest: self.highest.max(word),
            highest_turned: if turned(self.highest_turned) < turned(word) {
                word
            } else {
                self.highest_turned
            },
            count: self.count,
        }
    }

    /// Widens the range by word `k` of each coordinate.
    #[tactic(auto, using(crate::proofs::Widening::run_laws))]
    #[inline(always)]
    fn widen_by(&mut self, k: usize, run: Run<'_>)
        requires there { k < run.size / 8 }
        requires room { self.old.count + run.count < 2 ^ 64 }
        ensures { WidensRange self.old self.new (words_at (Some k) (run_coordinates run.entry)) }
    {
        let mut now = self.counting(run.count);
        let mut left = run;
        while left.count > 0 {
            now = now.with(left.first_word(k));
            left = left.behind_first();
        }
        *self = now;
    }

    /// As `widen_by`, with a loop for each order. It isn't inlined, so that its counters stay in registers.
    #[tactic(auto, using(crate::proofs::Widening::run_laws))]
    #[inline(never)]
    fn widen(&mut self, k: usize, order: Endianness, size: usize, count: u32, bytes: &[u8])
        requires there { k < size / 8 }
        requires whole { size * count ≤ length bytes.now }
        requires room { self.old.count + count < 2 ^ 64 }
        ensures { WidensRange self.old self.new (words_at (Some k) (rows order size count bytes.now)) }
    {
        by_order!(order, self.widen_by(k, Run::of(order, size, count, bytes)))
    }

    /// Widens the range by the word at this place of each coordinate, if they have one there.
    #[tactic(auto, using(crate::proofs::Widening::no_ordinates))]
    #[inline(always)]
    pub(crate) fn widen_at(&mut self, place: Option<usize>, run: Run<'_>)
        requires place { IfSome place (λ k. k < run.size / 8) }
        requires room { self.old.count + run.count < 2 ^ 64 }
        ensures { WidensRange self.old self.new (words_at place (run_coordinates run.entry)) }
    {
        if let Some(k) = place {
            self.widen(k, run.order, run.size, run.count, run.bytes);
        }
    }
}
