//! The words of the cases' numbers, the options of writing, and plain geometries.

use std::alloc::Global;
use std::test::Fail;
use wkb::Endianness;
use wkb::geom::{
    Coord, Dimensions, Geometry, GeometryCollection, Line, LineString, MultiLineString, MultiPoint,
    MultiPolygon, Point, Polygon, Rect, Triangle,
};
use wkb::writer::{Form, WriteOptions};

pub const ONE: u64 = 0x3ff0_0000_0000_0000;

pub const TWO: u64 = 0x4000_0000_0000_0000;

pub const THREE: u64 = 0x4008_0000_0000_0000;

/// ISO in this order.
pub fn iso(endianness: Endianness) -> WriteOptions {
    WriteOptions {
        endianness,
        form: Form::Iso,
    }
}

// The plain geometries. These helpers have no clauses, so that the proof of a test reads few facts.

pub fn coord_of<'w>(dim: Dimensions, words: &'w [u64]) -> Result<Coord<'w>, Fail> {
    Ok(Coord::new(dim, words).ok_or("no coordinate")?)
}

pub fn point_of<'w>(dim: Dimensions, words: &'w [u64]) -> Result<Point<'w>, Fail> {
    Ok(Point::new(coord_of(dim, words)?))
}

pub fn line_string_of<'w>(dim: Dimensions, words: &'w [u64]) -> Result<LineString<'w>, Fail> {
    Ok(LineString::new(dim, words).ok_or("no line string")?)
}

pub fn polygon_of<'w>(dim: Dimensions, rings: &'w [LineString<'w>]) -> Result<Polygon<'w>, Fail> {
    Ok(Polygon::new(dim, rings).ok_or("no polygon")?)
}

pub fn multi_point_of<'w>(
    dim: Dimensions,
    points: &'w [Point<'w>],
) -> Result<MultiPoint<'w>, Fail> {
    Ok(MultiPoint::new(dim, points).ok_or("no multi point")?)
}

pub fn multi_line_string_of<'w>(
    dim: Dimensions,
    line_strings: &'w [LineString<'w>],
) -> Result<MultiLineString<'w>, Fail> {
    Ok(MultiLineString::new(dim, line_strings).ok_or("no multi line string")?)
}

pub fn multi_polygon_of<'w>(
    dim: Dimensions,
    polygons: &'w [Polygon<'w>],
) -> Result<MultiPolygon<'w>, Fail> {
    Ok(MultiPolygon::new(dim, polygons).ok_or("no multi polygon")?)
}

pub fn line_of<'w>(start: Coord<'w>, end: Coord<'w>) -> Result<Line<'w>, Fail> {
    Ok(Line::new(start, end).ok_or("no line")?)
}

pub fn rect_of<'w>(min: Coord<'w>, max: Coord<'w>) -> Result<Rect<'w>, Fail> {
    Ok(Rect::new(min, max).ok_or("no rectangle")?)
}

pub fn triangle_of<'w>(
    first: Coord<'w>,
    second: Coord<'w>,
    third: Coord<'w>,
) -> Result<Triangle<'w>, Fail> {
    Ok(Triangle::new(first, second, third).ok_or("no triangle")?)
}

/// A collection of two.
pub fn collection_of_two<'w>(
    alloc: Global,
    dim: Dimensions,
    first: Geometry<'w>,
    second: Geometry<'w>,
) -> Result<Geometry<'w>, Fail> {
    let mut members = Vec::with_capacity(alloc, 2)?;
    members.push(first)?;
    members.push(second)?;
    Ok(Geometry::GeometryCollection(GeometryCollection::new(dim, members)))
}
