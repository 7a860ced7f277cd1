//! A row of a column, as a geometry of the column's kind.

ghost use Rattle.std.specs.Prelude.{◌≡◌, ◌<◌, ◌+◌, length};
ghost use Rattle.std.specs.Option.{option_map};
ghost use Rattle.wkb_geom.specs.Found.{HasDimensions};
ghost use Rattle.wkb_plain.specs.Kinds.{line_string_coordinates, coord_words, coord_dimensions};
ghost use Rattle.wkb_plain.specs.Kinds.{line_string_dimensions};
ghost use Rattle.wkb_write.specs.Prelude.{IsSizeOf, WritesToSlice};
ghost use Rattle.wkb_levels.specs.Columns.{IsFloor};
ghost use Rattle.wkb_levels.specs.Cuts.{only};
ghost use Rattle.wkb_levels.specs.EndLists.{ends_of};
ghost use Rattle.wkb_levels.specs.Meant.{row_meant, single_meant, rings_as, singles_as, FindsRow};

use crate::levels::{Levels, Place};
use crate::points::Points;
use crate::polygons::Polygons;
use crate::rings::Rings;
use crate::single::Single;
use wkb_geom::{Dimensions, LineStringTrait, WkbResult};
use wkb_plain::{Coord, LineString, Point};
use wkb_write::{
    WriteOptions, geometry_wkb_size_with, made_polygons_wkb_size_with,
    write_made_polygons_to_slice, write_to_slice,
};

/// The kind that all rows have.
#[derive(Debug, Clone, Copy, PartialEq)]
pub enum Kind {
    Point,
    LineString,
    Polygon,
    MultiPoint,
    MultiLineString,
    MultiPolygon,
}

/// A row.
#[derive(Debug, Clone, Copy)]
pub enum Row<'w> {
    Single(Single<'w>),
    MultiPolygon(Polygons<'w>),
}

impl Row<'_> {
    /// The size of its encoding.
    pub fn size(&self, options: &WriteOptions) -> WkbResult<usize>
        ensures { IsSizeOf options.now.form (row_meant self.now) result }
    {
        match self {
            Row::Single(g) => geometry_wkb_size_with(g, options),
            Row::MultiPolygon(p) => made_polygons_wkb_size_with(p, options),
        }
    }

    /// Writes it to the front of a slice, as `write_to_slice` does.
    pub fn write(&self, options: &WriteOptions, out: &mut [u8]) -> WkbResult<usize>
        ensures { WritesToSlice options.now (row_meant self.now) out.old out.new result }
    {
        match self {
            Row::Single(g) => write_to_slice(g, options, out),
            Row::MultiPolygon(p) => write_made_polygons_to_slice(p, options, out),
        }
    }
}

#[tactic(auto, using(crate::proofs::Floors::floor_laws))]
impl<'w> Levels<'w> {
    /// Row i as a geometry of the kind and dimension. None if its levels fall, pass the next level's end, begin
    /// before an earlier row's end, or don't fit the kind: a point, a line string or a polygon is one single, each
    /// single of another kind than a polygon has one ring, and a point's ring has one coordinate.
    ///
    /// On entry `floor` is the end of all rows before it; on return it includes this row. So ask for rows in turn, from
    /// `Place::front` on; `rows` does it. A row that at a level ends before it begins, or past the level's end, reaches
    /// nowhere there and below. `singles` is called only for a row that begins at no level before the floor.
    pub fn row(&self, kind: Kind, dim: Dimensions, i: usize, floor: &mut Place) -> Option<Row<'w>>
        requires index { i < length (ends_of self.now.row_ends) }
        requires floor { IsFloor self.now dim i floor.old }
        ensures row { FindsRow self.now kind dim i result }
        ensures floor { IsFloor self.now dim (i + 1) floor.new }
    {
        if !self.pass(dim, i, floor) {
            return None;
        }
        let singles = self.singles(dim, i)?;
        row_of_singles(&singles, kind)
    }
}

/// Singles as a row of this kind, if they fit it.
fn row_of_singles<'w>(singles: &Polygons<'w>, kind: Kind) -> Option<Row<'w>>
    ensures { option_map row_meant result ≡ singles_as kind singles.now }
{
    match kind {
        Kind::MultiPolygon => Some(Row::MultiPolygon(*singles)),
        Kind::Polygon => match singles.only() {
            Some(polygon) => Some(Row::Single(Single::Polygon(polygon))),
            None => None,
        },
        _ => match singles.rings_one_each() {
            Some(rings) => match row_of_rings(&rings, kind) {
                Some(single) => Some(Row::Single(single)),
                None => None,
            },
            None => None,
        },
    }
}

/// Rings, each of a single of its own, as a row of this kind, if they fit it.
fn row_of_rings<'w>(rings: &Rings<'w>, kind: Kind) -> Option<Single<'w>>
    ensures { option_map single_meant result ≡ rings_as kind rings.now }
{
    match kind {
        Kind::MultiLineString => Some(Single::MultiLineString(*rings)),
        Kind::LineString => match rings.only() {
            Some(line) => Some(Single::LineString(line)),
            None => None,
        },
        Kind::Point => match rings.only() {
            Some(line) => match only_coord(&line) {
                Some(coord) => Some(Single::Point(Point::new(coord))),
                None => None,
            },
            None => None,
        },
        Kind::MultiPoint => match rings.coordinates_one_each() {
            Some(line) => Some(Single::MultiPoint(Points::new(line))),
            None => None,
        },
        Kind::Polygon | Kind::MultiPolygon => None,
    }
}

/// The one coordinate of a ring, if there is one.
fn only_coord<'w>(ring: &LineString<'w>) -> Option<Coord<'w>>
    ensures value { option_map coord_words result ≡ only (line_string_coordinates ring.now) }
    ensures dimensions { HasDimensions coord_dimensions result (line_string_dimensions ring.now) }
{
    if ring.num_coords() == 1 {
        Some(ring.coord_at(0))
    } else {
        None
    }
}
