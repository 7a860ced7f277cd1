//! Rings one after another: a polygon, or line strings.

ghost use Rattle.std.specs.Prelude.{◌≡◌, ◌≤◌, ◌<◌, ◌/◌, ◌↔◌, length, IfSome, IsSome, All, slice_get, slice_range};
ghost use Rattle.std.specs.Prelude.{Some};
ghost use Rattle.wkb_geom.specs.Dimensions.{size};
ghost use Rattle.wkb_geom.specs.Numbers.{IsWord};
ghost use Rattle.std.specs.Option.{option_map};
ghost use Rattle.wkb_geom.specs.Found.{IsItemAt, HasDimensions};
ghost use Rattle.wkb_levels.specs.Cuts.{only, only_each};
ghost use Rattle.wkb_levels.specs.EndLists.{AreEndsWithin};
ghost use Rattle.wkb_plain.specs.Kinds.{line_string_dimensions, line_string_coordinates};

use crate::ends::Ends;
use wkb_geom::{Dimensioned, Dimensions, MultiLineStringTrait, PolygonTrait};
use wkb_plain::LineString;

/// Rings one after another, by their ends, counted in coordinates from the start of the words.
#[derive(Debug, Clone, Copy)]
pub struct Rings<'w> {
    dim: Dimensions,
    words: &'w [u64],
    ends: Ends<'w>,
    ghost some_words: { 0 < size dim },
    ghost in_range: { All IsWord words.now },
    ghost fit: { AreEndsWithin (length words.now / size dim) ends },
}

#[tactic(auto, using(crate::proofs::RingLaws::ring_laws))]
impl<'w> Rings<'w> {
    ghost use Rattle.wkb_levels.specs.RingLists.{rings_dimensions, rings_rings, rings_in, FitWords};

    /// The rings that end here. None if the dimension has no words, or the ends fall or pass the words.
    pub fn new(dim: Dimensions, words: &'w [u64], ends: Ends<'w>) -> Option<Rings<'w>>
        ensures some { IsSome result ↔ FitWords dim words.now ends.entry }
        ensures dimensions { HasDimensions rings_dimensions result dim }
        ensures rings { IfSome result (λ r. rings_rings r ≡ rings_in dim words.now ends.entry) }
    {
        let width = dim.size();
        if width == 0 || !ends.are_within(words.len() / width) {
            return None;
        }
        Some(Rings { dim, words, ends })
    }

    /// How many there are.
    pub fn len(&self) -> usize
        ensures { result ≡ length (rings_rings self.now) }
    {
        self.ends.len()
    }

    /// The ring at an index, which has to be below `len`.
    pub fn ring(&self, i: usize) -> LineString<'w>
        requires { i < length (rings_rings self.now) }
        ensures value { slice_get (rings_rings self.now) i ≡ Some (line_string_coordinates result) }
        ensures dimensions { line_string_dimensions result ≡ rings_dimensions self.now }
    {
        let width = self.dim.size();
        let from = width * self.ends.begin(i) as usize;
        let to = width * self.ends.end(i) as usize;
        match LineString::new(self.dim, &self.words[from..to]) {
            Some(line) => line,
            None => unreachable!(),
        }
    }

    /// The ring at an index, if there is one.
    fn get(&self, i: usize) -> Option<LineString<'w>>
        ensures value { IsItemAt line_string_coordinates result (rings_rings self.now) i }
        ensures dimensions { HasDimensions line_string_dimensions result
            (rings_dimensions self.now) }
    {
        if i < self.ends.len() {
            Some(self.ring(i))
        } else {
            None
        }
    }

    /// The one ring, if there is one.
    pub fn only(&self) -> Option<LineString<'w>>
        ensures value { option_map line_string_coordinates result ≡ only (rings_rings self.now) }
        ensures dimensions { HasDimensions line_string_dimensions result
            (rings_dimensions self.now) }
    {
        if self.len() == 1 {
            Some(self.ring(0))
        } else {
            None
        }
    }

    /// The coordinates of all rings as one line string, if each ring has one.
    pub fn coordinates_one_each(&self) -> Option<LineString<'w>>
        ensures value { option_map line_string_coordinates result ≡
            only_each (rings_rings self.now) }
        ensures dimensions { HasDimensions line_string_dimensions result
            (rings_dimensions self.now) }
    {
        if !self.ends.are_ones() {
            return None;
        }
        let width = self.dim.size();
        let from = width * self.ends.start() as usize;
        let to = from + width * self.ends.len();
        LineString::new(self.dim, &self.words[from..to])
    }

    /// The rings from one index up to another.
    pub fn part(&self, from: usize, to: usize) -> Rings<'w>
        requires order { from ≤ to }
        requires within { to ≤ length (rings_rings self.now) }
        ensures rings { rings_rings result ≡ slice_range (rings_rings self.now) from to }
        ensures dimensions { rings_dimensions result ≡ rings_dimensions self.now }
    {
        Rings {
            dim: self.dim,
            words: self.words,
            ends: self.ends.part(from, to),
        }
    }
}

impl Dimensioned for Rings<'_> {
    ghost use Rattle.wkb_levels.specs.RingLists.{rings_dimensions};

    ghost dimensions = { rings_dimensions };

    fn dim(&self) -> Dimensions {
        self.dim
    }
}

#[tactic(auto, using(crate::proofs::Pieces::piece_laws))]
impl<'w> PolygonTrait for Rings<'w> {
    ghost use Rattle.wkb_levels.specs.RingLists.{rings_rings};
    ghost use Rattle.wkb_levels.specs.Lawful.{rings_lawful};

    type RingType = LineString<'w>;

    ghost rings = { rings_rings };

    ghost lawful = { rings_lawful };

    fn num_interiors(&self) -> usize {
        self.ends.len().saturating_sub(1)
    }

    fn exterior(&self) -> Option<LineString<'w>> {
        self.get(0)
    }

    fn interior(&self, i: usize) -> Option<LineString<'w>> {
        if i < self.num_interiors() {
            Some(self.ring(i + 1))
        } else {
            None
        }
    }
}

#[tactic(auto, using(crate::proofs::Pieces::piece_laws))]
impl<'w> MultiLineStringTrait for Rings<'w> {
    ghost use Rattle.wkb_levels.specs.RingLists.{rings_rings};
    ghost use Rattle.wkb_levels.specs.Lawful.{rings_lawful};

    type InnerLineStringType = LineString<'w>;

    ghost line_strings = { rings_rings };

    ghost lawful = { rings_lawful };

    fn num_line_strings(&self) -> usize {
        self.ends.len()
    }

    fn line_string(&self, i: usize) -> Option<LineString<'w>> {
        self.get(i)
    }
}
