//! Ranges as numbers: what is within one is between its least and its greatest, as doubles.

ghost use Rattle.std.specs.Prelude.{◌≡◌, true, false};
ghost use Rattle.wkb.specs.Prelude.{is_nan};
ghost use Rattle.wkb.specs.Order.{HasNumbers};
ghost use Rattle.wkb.specs.Ranges.{IsWithin};

use wkb::check::Range;

/// Whether a number that is within a range is between its least and its greatest: always.
pub fn holds(range: Range, word: u64) -> bool
    requires numbers { HasNumbers range }
    requires number { is_nan word ≡ false }
    requires within { IsWithin range word }
    ensures { result ≡ true }
{
    let number = f64::from_bits(word);
    (f64::from_bits(range.least) <= number) & (number <= f64::from_bits(range.greatest))
}
