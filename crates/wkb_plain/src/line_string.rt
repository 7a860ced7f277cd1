//! Line strings, and the rings of polygons.

ghost use Rattle.std.specs.Prelude.{◌≡◌, ◌%◌, ◌<◌, ◌↔◌, length, IfSome, IsSome, All};
ghost use Rattle.std.specs.List.{concat};
ghost use Rattle.wkb_geom.specs.Found.{HasDimensions};
ghost use Rattle.wkb_geom.specs.Dimensions.{size};
ghost use Rattle.wkb_geom.specs.Numbers.{IsWord};

use crate::coord::Coord;
use wkb_geom::{Dimensioned, Dimensions, LineStringTrait};

/// A line string. Its words are those of its coordinates, one after another.
#[derive(Debug, Clone, Copy)]
pub struct LineString<'w> {
    dim: Dimensions,
    words: &'w [u64],
    ghost some_words: { 0 < size dim },
    ghost whole_coordinates: { length words.now % size dim ≡ 0 },
    ghost in_range: { All IsWord words.now },
}

#[tactic(auto, using(crate::proofs::Runs::runs_laws))]
impl<'w> LineString<'w> {
    ghost use Rattle.wkb_plain.specs.Kinds.{line_string_dimensions, line_string_coordinates};
    ghost use Rattle.wkb_plain.specs.Runs.{coordinates_in};

    /// The line string of the coordinates that follow one another in these words. None if the
    /// dimension has no words, or the last coordinate isn't whole.
    pub fn new(dim: Dimensions, words: &'w [u64]) -> Option<LineString<'w>>
        ensures some { IsSome result ↔ ((0 < size dim) × (length words.now % size dim ≡ 0)) }
        ensures dimensions { HasDimensions line_string_dimensions result dim }
        ensures coordinates { IfSome result
            (λ l. line_string_coordinates l ≡ coordinates_in dim words.now) }
        ensures words { IfSome result (λ l. concat (line_string_coordinates l) ≡ words.now) }
    {
        let width = dim.size();
        if width == 0 || words.len() % width != 0 {
            return None;
        }
        Some(LineString { dim, words })
    }
}

impl Dimensioned for LineString<'_> {
    ghost use Rattle.wkb_plain.specs.Kinds.{line_string_dimensions};

    ghost dimensions = { line_string_dimensions };

    fn dim(&self) -> Dimensions {
        self.dim
    }
}

#[tactic(auto, using(crate::proofs::Runs::line_laws))]
impl<'w> LineStringTrait for LineString<'w> {
    ghost use Rattle.wkb_plain.specs.Kinds.{line_string_coordinates};
    ghost use Rattle.wkb_plain.specs.Lawful.{line_string_lawful};

    type CoordType = Coord<'w>;

    ghost coordinates = { line_string_coordinates };

    ghost lawful = { line_string_lawful };

    // Widths that are constants make the division a multiplication.
    fn num_coords(&self) -> usize {
        match self.dim.size() {
            2 => self.words.len() / 2,
            3 => self.words.len() / 3,
            width => self.words.len() / width,
        }
    }

    fn coord(&self, i: usize) -> Option<Coord<'w>> {
        if i < self.num_coords() {
            Some(self.coord_at(i))
        } else {
            None
        }
    }

    fn coord_at(&self, i: usize) -> Coord<'w> {
        let width = self.dim.size();
        let start = i * width;
        Coord {
            dim: self.dim,
            words: &self.words[start..start + width],
        }
    }

    #[inline]
    fn coords_as_words(&self) -> Option<&[u64]>
        ensures lent { IsSome result }
        ensures words { IfSome result (λ ws. ws.now ≡ concat (line_string_coordinates self.now)) }
    {
        Some(self.words)
    }
}
