//! Coordinates, which borrow their words.

ghost use Rattle.std.specs.Prelude.{◌≡◌, ◌<◌, ◌↔◌, length, IfSome, IsSome, All};
ghost use Rattle.wkb_geom.specs.Found.{HasDimensions};
ghost use Rattle.wkb_geom.specs.Dimensions.{size};
ghost use Rattle.wkb_geom.specs.Numbers.{IsWord};

use wkb_geom::{CoordTrait, Dimensioned, Dimensions};

/// A coordinate: the words of its ordinates, each the bits of a binary64 number.
#[derive(Debug, Clone, Copy)]
pub struct Coord<'w> {
    pub(crate) dim: Dimensions,
    pub(crate) words: &'w [u64],
    ghost as_many_words: { length words.now ≡ size dim },
    ghost in_range: { All IsWord words.now },
}

impl<'w> Coord<'w> {
    ghost use Rattle.wkb_plain.specs.Kinds.{coord_dimensions, coord_words};

    /// The coordinate of these words. None if the dimension has no words at all, or another
    /// number of them.
    #[inline]
    pub fn new(dim: Dimensions, words: &'w [u64]) -> Option<Coord<'w>>
        ensures some { IsSome result ↔ ((0 < size dim) × (length words.now ≡ size dim)) }
        ensures dimensions { HasDimensions coord_dimensions result dim }
        ensures words { IfSome result (λ c. coord_words c ≡ words.now) }
    {
        let width = dim.size();
        if width == 0 || words.len() != width {
            return None;
        }
        Some(Coord { dim, words })
    }
}

impl Dimensioned for Coord<'_> {
    ghost use Rattle.wkb_plain.specs.Kinds.{coord_dimensions};

    ghost dimensions = { coord_dimensions };

    #[inline]
    fn dim(&self) -> Dimensions {
        self.dim
    }
}

#[tactic(auto, using(crate::proofs::Lookups::lookup_laws))]
impl CoordTrait for Coord<'_> {
    ghost use Rattle.wkb_plain.specs.Kinds.{coord_words};
    ghost use Rattle.wkb_plain.specs.Lawful.{coord_lawful};

    ghost words = { coord_words };

    ghost lawful = { coord_lawful };

    #[inline]
    fn nth(&self, n: usize) -> Option<u64> {
        self.words.get(n).copied()
    }

    #[inline]
    fn at(&self, n: usize) -> u64 {
        self.words[n]
    }

    #[inline]
    fn x(&self) -> u64 {
        self.words[0]
    }

    #[inline]
    fn y(&self) -> u64 {
        self.words[1]
    }

    #[inline]
    fn x_y(&self) -> (u64, u64) {
        (self.words[0], self.words[1])
    }
}
