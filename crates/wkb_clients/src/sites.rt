//! Types of one's own that contain geometries of `wkb`, whose lemmas say that they are lawful: a plain point with a
//! number, a line string that was read with one, and geometries that were read, together.

ghost use Rattle.std.specs.Prelude.{map};
ghost use Rattle.wkb.specs.Prelude.{as_dimensions};
ghost use Rattle.wkb.specs.Plain.{point_dimensions, point_coordinate, point_lawful};
ghost use Rattle.wkb.specs.Reads.{line_string_dimension, seen_coordinates, geometry_seen};
ghost use Rattle.wkb.specs.Lawful.{line_string_view_lawful};

use wkb::geom::{
    Coord, Dimensioned, Dimensions, GeometryCollectionTrait, LineStringTrait, Point, PointTrait,
};
use wkb::reader::{self, Wkb};

/// A point over the caller's own words, and the number of what is there.
#[derive(Clone, Copy)]
pub struct Site<'w> {
    pub number: u32,
    pub at: Point<'w>,
}

impl Dimensioned for Site<'_> {
    ghost dimensions = { λ site. point_dimensions site.at };

    fn dim(&self) -> Dimensions {
        self.at.dim()
    }
}

impl<'w> PointTrait for Site<'w> {
    type CoordType = Coord<'w>;

    ghost coordinate = { λ site. point_coordinate site.at };

    ghost lawful = { λ site. point_lawful site.at };

    fn coord(&self) -> Option<Coord<'w>> {
        self.at.coord()
    }
}

/// A line string that was read, and the number of the road that it shows.
#[derive(Clone, Copy)]
pub struct Route<'a> {
    pub number: u32,
    pub along: reader::LineString<'a>,
}

impl Dimensioned for Route<'_> {
    ghost dimensions = { λ route. as_dimensions (line_string_dimension route.along) };

    fn dim(&self) -> Dimensions {
        self.along.dim()
    }
}

impl<'a> LineStringTrait for Route<'a> {
    type CoordType = reader::Coord<'a>;

    ghost coordinates = { λ route. seen_coordinates route.along };

    ghost lawful = { λ route. line_string_view_lawful route.along };

    fn num_coords(&self) -> usize {
        self.along.num_coords()
    }

    fn coord(&self, i: usize) -> Option<reader::Coord<'a>> {
        self.along.coord(i)
    }

    fn coord_at(&self, i: usize) -> reader::Coord<'a> {
        self.along.coord_at(i)
    }
}

/// Geometries that were read, as a collection of these dimensions.
#[derive(Drop)]
pub struct Bundle<'a> {
    pub dim: Dimensions,
    pub members: Vec<Wkb<'a>>,
}

impl Dimensioned for Bundle<'_> {
    ghost dimensions = { λ bundle. bundle.dim };

    fn dim(&self) -> Dimensions {
        self.dim
    }
}

impl<'a> GeometryCollectionTrait for Bundle<'a> {
    ghost use Rattle.wkb.specs.Members.{items_lawful};

    type GeometryType = Wkb<'a>;

    ghost members = { λ bundle. map geometry_seen bundle.members.items };

    ghost lawful = { λ bundle. items_lawful bundle.members.items };

    fn geometries(&self) -> &[Wkb<'a>] {
        self.members.as_slice()
    }

    fn num_geometries(&self) -> usize {
        self.members.len()
    }

    fn geometry(&self, i: usize) -> Option<&Wkb<'a>> {
        self.members.get(i)
    }
}
