//! Points one after another.

ghost use Rattle.std.specs.Prelude.{◌≡◌, map, Some};
ghost use Rattle.wkb_plain.specs.Kinds.{line_string_dimensions, line_string_coordinates};
ghost use Rattle.wkb_levels.specs.PointLists.{points_dimensions, points_points};
ghost use Rattle.wkb_levels.specs.Lawful.{points_lawful};

use wkb_geom::{Dimensioned, Dimensions, LineStringTrait, MultiPointTrait};
use wkb_plain::{LineString, Point};

/// The points at the coordinates of a line string.
#[derive(Debug, Clone, Copy)]
pub struct Points<'w> {
    line: LineString<'w>,
}

impl<'w> Points<'w> {
    /// A point at each of these coordinates.
    pub fn new(line: LineString<'w>) -> Points<'w>
        ensures dimensions { points_dimensions result ≡ line_string_dimensions line.entry }
        ensures points { points_points result ≡
            map (λ c. Some c) (line_string_coordinates line.entry) }
    {
        Points { line }
    }
}

impl Dimensioned for Points<'_> {
    ghost dimensions = { points_dimensions };

    fn dim(&self) -> Dimensions {
        self.line.dim()
    }
}

impl<'w> MultiPointTrait for Points<'w> {
    type InnerPointType = Point<'w>;

    ghost points = { points_points };

    ghost lawful = { points_lawful };

    fn num_points(&self) -> usize {
        self.line.num_coords()
    }

    fn point(&self, i: usize) -> Option<Point<'w>> {
        match self.line.coord(i) {
            Some(coord) => Some(Point::new(coord)),
            None => None,
        }
    }
}
