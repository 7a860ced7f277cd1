//! A range that a caller widens, word by word.

ghost use Rattle.std.specs.Prelude.{◌≡◌, ◌+◌, ◌<◌, ◌^◌};
ghost use Rattle.wkb_bounds.specs.Ranges.{with_word as range_with};

use crate::range::Range;
use wkb_geom::words::{is_nan, rank};

impl Range {
    /// The range widened by a word, which counts if it is a number.
    ///
    /// ```
    /// // The x of every coordinate of a ring.
    /// let mut range = Range::empty();
    /// for i in 0..ring.num_coords() {
    ///     range = range.with_word(ring.coord_at(i).x());
    /// }
    /// ```
    pub fn with_word(self, word: u64) -> Range
        requires { self.count + 1 < 2 ^ 64 }
        ensures { result ≡ range_with self word }
    {
        if is_nan(word) {
            return self;
        }
        Range {
            least: if rank(word) < rank(self.least) {
                word
            } else {
                self.least
            },
            greatest: if rank(self.greatest) < rank(word) {
                word
            } else {
                self.greatest
            },
            count: self.count + 1,
        }
    }
}
