//! Lines from one coordinate to another.

ghost use Rattle.std.specs.Prelude.{◌≡◌, ◌↔◌, IfSome, IsSome};
ghost use Rattle.wkb_geom.specs.Found.{HasDimensions};

use crate::coord::Coord;
use wkb_geom::{Dimensioned, Dimensions, LineTrait};

/// A line between two coordinates.
#[derive(Debug, Clone, Copy)]
pub struct Line<'w> {
    start: Coord<'w>,
    end: Coord<'w>,
    ghost one_dimension: { end.dim ≡ start.dim },
}

impl<'w> Line<'w> {
    ghost use Rattle.wkb_plain.specs.Kinds.{coord_dimensions, coord_words, line_dimensions};
    ghost use Rattle.wkb_plain.specs.Kinds.{line_start, line_end};

    /// The line from one coordinate to another. None if they differ in dimension.
    pub fn new(start: Coord<'w>, end: Coord<'w>) -> Option<Line<'w>>
        ensures some { IsSome result ↔ (coord_dimensions end.entry ≡ coord_dimensions start.entry) }
        ensures dimensions { HasDimensions line_dimensions result (coord_dimensions start.entry) }
        ensures start { IfSome result (λ l. line_start l ≡ coord_words start.entry) }
        ensures end { IfSome result (λ l. line_end l ≡ coord_words end.entry) }
    {
        if end.dim != start.dim {
            return None;
        }
        Some(Line { start, end })
    }
}

impl Dimensioned for Line<'_> {
    ghost use Rattle.wkb_plain.specs.Kinds.{line_dimensions};

    ghost dimensions = { line_dimensions };

    fn dim(&self) -> Dimensions {
        self.start.dim
    }
}

impl<'w> LineTrait for Line<'w> {
    ghost use Rattle.wkb_plain.specs.Kinds.{line_start, line_end};
    ghost use Rattle.wkb_plain.specs.Lawful.{line_lawful};

    type CoordType = Coord<'w>;

    ghost start_words = { line_start };

    ghost end_words = { line_end };

    ghost lawful = { line_lawful };

    fn start(&self) -> Coord<'w> {
        self.start
    }

    fn end(&self) -> Coord<'w> {
        self.end
    }
}
