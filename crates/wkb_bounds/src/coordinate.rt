//! The bounds of one coordinate, whose words are the least and the greatest themselves.

ghost use Rattle.std.specs.Prelude.{◌≡◌, ◌*◌, ◌<◌, ◌≤◌, length, IfSome};
ghost use Rattle.wkb_geom.specs.Dimensions.{width};
ghost use Rattle.wkb_geom.specs.Reading.{coordinates};
ghost use Rattle.wkb_bounds.specs.Ranges.{no_numbers, with_word, range_of};
ghost use Rattle.wkb_bounds.specs.Ordinates.{place_words, words_in};
ghost use Rattle.wkb_bounds.specs.Bounded.{Widens};
ghost use Rattle.wkb_bounds.specs.Bounded.{nothing as no_bounds};

use crate::axes::{place_of_m, place_of_z};
use crate::range::{Bounds, Range};
use wkb_geom::words::{WORD_SIZE, is_nan, u64_at};
use wkb_geom::{Dimension, Endianness};

impl Range {
    /// The range of one word.
    #[tactic(auto, using(crate::proofs::Ranking::one_number))]
    #[inline(always)]
    fn of_word(word: u64) -> Range
        ensures { result ≡ with_word no_numbers word }
    {
        if is_nan(word) {
            return Range::empty();
        }
        Range {
            least: word,
            greatest: word,
            count: 1,
        }
    }

    /// The range of the word at this place of the coordinate at the start of the bytes, if it has one there.
    #[tactic(auto, using(crate::proofs::Widening::one_word_at))]
    #[inline(always)]
    fn of_ordinate(
        place: Option<usize>,
        order: Endianness,
        dimension: Dimension,
        bytes: &[u8],
    ) -> Range
        requires place { IfSome place (λ k. k < width dimension) }
        requires whole { 8 * width dimension ≤ length bytes.now }
        ensures { result ≡ range_of (place_words place order dimension 1 bytes.now) }
    {
        match place {
            Some(word) => Range::of_word(u64_at(bytes, WORD_SIZE * word, order)),
            None => Range::empty(),
        }
    }
}

impl Bounds {
    /// The bounds of the coordinate at the start of the bytes.
    #[inline(always)]
    pub(crate) fn of_coordinate(order: Endianness, dimension: Dimension, bytes: &[u8]) -> Bounds
        requires { 8 * width dimension ≤ length bytes.now }
        ensures { Widens no_bounds result
            (λ a. words_in a dimension (coordinates order dimension 1 bytes.now)) }
    {
        Bounds {
            x: Range::of_ordinate(Some(0), order, dimension, bytes),
            y: Range::of_ordinate(Some(1), order, dimension, bytes),
            z: Range::of_ordinate(place_of_z(dimension), order, dimension, bytes),
            m: Range::of_ordinate(place_of_m(dimension), order, dimension, bytes),
        }
    }
}
