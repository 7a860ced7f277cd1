//! A coordinate.

ghost use Rattle.std.specs.Prelude.{◌≡◌, ◌*◌, length};
ghost use Rattle.wkb_geom.specs.declared.words.TheConstants.{WORD_SIZE};
ghost use Rattle.wkb_view.specs.Prelude.{width, AreBytes};

use wkb_geom::words::{WORD_SIZE, is_nan, u64_at};
use wkb_geom::{CoordTrait, Dimension, Dimensioned, Dimensions, Endianness};

/// A coordinate: eight bytes for each of its words, in one byte order.
#[derive(Clone, Copy, Debug)]
pub struct Coord<'a> {
    pub(crate) bytes: &'a [u8],
    pub(crate) order: Endianness,
    pub(crate) dimension: Dimension,
    ghost whole: { length bytes.now ≡ WORD_SIZE * width dimension },
    ghost in_range: { AreBytes bytes.now },
}

impl<'a> Coord<'a> {
    ghost use Rattle.std.specs.Prelude.{◌≡◌, ◌*◌, length};
    ghost use Rattle.wkb_view.specs.Prelude.{width, all_nan};
    ghost use Rattle.wkb_view.specs.Coords.{words_seen, coord_order, coord_dimension};
    ghost use Rattle.wkb_view.specs.Coords.{coord_encoding, CoordBytesSpell};

    /// The order of its numbers.
    #[inline]
    pub fn byte_order(&self) -> Endianness
        ensures { result ≡ coord_order self.now }
    {
        self.order
    }

    /// The bytes of its words.
    #[inline]
    pub fn coord_slice(&self) -> &'a [u8]
        ensures encoding { result.now ≡ coord_encoding self.now }
        ensures spells { CoordBytesSpell self.now }
    {
        self.bytes
    }

    /// Its dimension.
    #[inline]
    pub fn dimension(&self) -> Dimension
        ensures { result ≡ coord_dimension self.now }
    {
        self.dimension
    }

    /// The number of its bytes.
    #[inline]
    pub fn size(&self) -> u64
        ensures bytes { result ≡ length (coord_encoding self.now) }
        ensures words { result ≡ WORD_SIZE * width (coord_dimension self.now) }
    {
        self.bytes.len() as u64
    }

    /// Whether all its words are NaNs. Inlined, so that a view of which only this asks needs no memory.
    #[inline(always)]
    pub(crate) fn is_all_nan(&self) -> bool
        ensures { result ≡ all_nan (words_seen self.now) }
    {
        for n in 0..self.dimension.width() {
            if !is_nan(u64_at(self.bytes, WORD_SIZE * n, self.order)) {
                return false;
            }
        }
        true
    }
}

impl Dimensioned for Coord<'_> {
    ghost use Rattle.wkb_view.specs.Prelude.{as_dimensions};
    ghost use Rattle.wkb_view.specs.Coords.{coord_dimension};

    ghost dimensions = { λ c. as_dimensions (coord_dimension c) };

    #[inline]
    fn dim(&self) -> Dimensions {
        self.dimension.into()
    }
}

impl CoordTrait for Coord<'_> {
    ghost use Rattle.wkb_view.specs.Coords.{words_seen};
    ghost use Rattle.wkb_view.specs.Lawful.{coordinate_lawful};

    ghost words = { words_seen };

    ghost lawful = { λ c. coordinate_lawful c.order c.dimension c.bytes.now c.in_range };

    #[tactic(auto, using(crate::proofs::Items::items_at))]
    #[inline]
    fn nth(&self, n: usize) -> Option<u64> {
        if n < self.dimension.width() {
            Some(u64_at(self.bytes, WORD_SIZE * n, self.order))
        } else {
            None
        }
    }

    #[tactic(auto, using(crate::proofs::Items::word_at, crate::specs::Lawful::named_size))]
    #[inline]
    fn at(&self, n: usize) -> u64 {
        u64_at(self.bytes, WORD_SIZE * n, self.order)
    }

    #[inline]
    fn x(&self) -> u64 {
        u64_at(self.bytes, 0, self.order)
    }

    #[inline]
    fn y(&self) -> u64 {
        u64_at(self.bytes, WORD_SIZE, self.order)
    }

    #[inline]
    fn x_y(&self) -> (u64, u64) {
        (self.at(0), self.at(1))
    }
}
