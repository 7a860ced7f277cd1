//! Points, and the empty point.

ghost use Rattle.std.specs.Prelude.{◌≡◌, ◌<◌, ◌↔◌, Some, None, IfSome, IsSome};
ghost use Rattle.std.specs.Option.{ForSome};
ghost use Rattle.wkb_geom.specs.Found.{HasDimensions};
ghost use Rattle.wkb_geom.specs.Dimensions.{size};

use crate::coord::Coord;
use wkb_geom::{Dimensioned, Dimensions, PointTrait};

/// A point, which may be empty.
#[derive(Debug, Clone, Copy)]
pub struct Point<'w> {
    dim: Dimensions,
    coord: Option<Coord<'w>>,
    ghost one_dimension: { ForSome coord (λ c. c.dim ≡ dim) },
}

impl<'w> Point<'w> {
    ghost use Rattle.wkb_plain.specs.Kinds.{coord_dimensions, coord_words, point_dimensions};
    ghost use Rattle.wkb_plain.specs.Kinds.{point_coordinate};

    /// The point at a coordinate, of the coordinate's dimension.
    #[inline]
    pub fn new(coord: Coord<'w>) -> Point<'w>
        ensures dimensions { point_dimensions result ≡ coord_dimensions coord.entry }
        ensures coordinate { point_coordinate result ≡ Some (coord_words coord.entry) }
    {
        Point {
            dim: coord.dim,
            coord: Some(coord),
        }
    }

    /// The empty point. None if the dimension has no words.
    #[inline]
    pub fn empty(dim: Dimensions) -> Option<Point<'w>>
        ensures some { IsSome result ↔ (0 < size dim) }
        ensures dimensions { HasDimensions point_dimensions result dim }
        ensures coordinate { IfSome result (λ p. point_coordinate p ≡ None) }
    {
        if dim.size() == 0 {
            return None;
        }
        Some(Point { dim, coord: None })
    }
}

impl Dimensioned for Point<'_> {
    ghost use Rattle.wkb_plain.specs.Kinds.{point_dimensions};

    ghost dimensions = { point_dimensions };

    #[inline]
    fn dim(&self) -> Dimensions {
        self.dim
    }
}

impl<'w> PointTrait for Point<'w> {
    ghost use Rattle.wkb_plain.specs.Kinds.{point_coordinate};
    ghost use Rattle.wkb_plain.specs.Lawful.{point_lawful};

    type CoordType = Coord<'w>;

    ghost coordinate = { point_coordinate };

    ghost lawful = { point_lawful };

    #[inline]
    fn coord(&self) -> Option<Coord<'w>> {
        self.coord
    }
}
