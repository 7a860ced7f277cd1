//! A plain geometry of each kind, through its own size function and its own writer.

ghost use Rattle.std.specs.Prelude.{◌≡◌, false};

use std::alloc::Global;
use std::test::Fail;
use wkb::Endianness;
use wkb::error::WkbResult;
use wkb::geom::{Dimensions, Geometry, GeometryCollection, Point, Rect};
use wkb::writer::{
    Form, Sink, WriteOptions, geometry_collection_wkb_size, geometry_wkb_size_with,
    line_string_wkb_size, line_wkb_size, multi_line_string_wkb_size, multi_point_wkb_size,
    multi_polygon_wkb_size, point_wkb_size, polygon_wkb_size, rect_wkb_size, triangle_wkb_size,
    write_geometry, write_geometry_collection, write_line, write_line_string,
    write_multi_line_string, write_multi_point, write_multi_polygon, write_point, write_polygon,
    write_rect, write_triangle,
};
use wkb_cases::support::{
    ONE, TWO, collection_of_two, coord_of, line_of, line_string_of, multi_line_string_of,
    multi_point_of, multi_polygon_of, point_of, polygon_of, rect_of, triangle_of,
};

/// Which size function and which writer are called.
#[derive(Clone, Copy)]
pub enum Kind {
    Point,
    LineString,
    Polygon,
    MultiPoint,
    MultiLineString,
    MultiPolygon,
    GeometryCollection,
    Rect,
    Triangle,
    Line,
    /// A point by `geometry_wkb_size_with` and `write_geometry`.
    Any,
}

/// The encoding of each kind, little endian, where all corners are 1.0 and 2.0, but for the rectangle's first, which is
/// the origin.
pub const ENCODINGS: [(Kind, &str); 11] = [
    (Kind::Point, "01 01000000 P"),
    (Kind::LineString, "01 02000000 01000000 P"),
    (Kind::Polygon, "01 03000000 02000000 01000000 P 01000000 P"),
    (
        Kind::MultiPoint,
        "01 04000000 02000000 01 01000000 P 01 01000000 P",
    ),
    (
        Kind::MultiLineString,
        "01 05000000 02000000 01 02000000 01000000 P 01 02000000 01000000 P",
    ),
    (
        Kind::MultiPolygon,
        "01 06000000 02000000 01 03000000 02000000 01000000 P 01000000 P
        01 03000000 02000000 01000000 P 01000000 P",
    ),
    (
        Kind::GeometryCollection,
        "01 07000000 02000000 01 01000000 P 01 02000000 01000000 P",
    ),
    (Kind::Rect, RECT),
    (Kind::Triangle, "01 03000000 01000000 04000000 P P P P"),
    (Kind::Line, "01 02000000 02000000 P P"),
    (Kind::Any, "01 01000000 P"),
];

/// The encoding of a rectangle from (0, 0) to (1.0, 2.0).
pub const RECT: &str = "01 03000000 01000000 05000000
    0000000000000000 0000000000000000 0000000000000000 0000000000000040
    P 000000000000f03f 0000000000000000 0000000000000000 0000000000000000";

/// How the geometries are written.
pub const LITTLE: WriteOptions = WriteOptions {
    endianness: Endianness::LittleEndian,
    form: Form::Iso,
};

/// The rectangle of which `RECT` is the encoding.
pub fn rect() -> Result<Rect<'static>, Fail> {
    rect_of(
        coord_of(Dimensions::Xy, &[0, 0])?,
        coord_of(Dimensions::Xy, &[ONE, TWO])?,
    )
}

pub fn put_point<S: Sink>(sink: &mut S, point: &Point<'_>, options: &WriteOptions) -> WkbResult<()>
    requires working { S.has_failed sink.old ≡ false }
{
    write_point(sink, point, options)
}

// The size that a size function told of what a writer wrote.
fn told(size: WkbResult<usize>, written: WkbResult<()>) -> Result<usize, Fail> {
    written?;
    Ok(size?)
}

fn any<S: Sink>(sink: &mut S, it: &Geometry<'_>) -> Result<usize, Fail>
    requires working { S.has_failed sink.old ≡ false }
{
    told(
        geometry_wkb_size_with(it, &LITTLE),
        write_geometry(sink, it, &LITTLE),
    )
}

fn collection<S: Sink>(sink: &mut S, it: &GeometryCollection<'_>) -> Result<usize, Fail>
    requires working { S.has_failed sink.old ≡ false }
{
    told(
        geometry_collection_wkb_size(it),
        write_geometry_collection(sink, it, &LITTLE),
    )
}

/// Measures and puts a geometry of the kind, little endian, and returns its size. Its parts are a corner, twice if it has
/// several; of a collection the second is a line string.
pub fn put_kind<S: Sink>(alloc: Global, sink: &mut S, kind: Kind) -> Result<usize, Fail>
    requires working { S.has_failed sink.old ≡ false }
{
    let (dim, words) = (Dimensions::Xy, &[ONE, TWO]);
    let coord = coord_of(dim, words)?;
    let point = point_of(dim, words)?;
    let line_string = line_string_of(dim, words)?;
    let (points, rings) = ([point; 2], [line_string; 2]);
    match kind {
        Kind::Point => told(point_wkb_size(dim), put_point(sink, &point, &LITTLE)),
        Kind::LineString => told(
            line_string_wkb_size(&line_string),
            write_line_string(sink, &line_string, &LITTLE),
        ),
        Kind::Polygon => {
            let it = polygon_of(dim, &rings)?;
            told(polygon_wkb_size(&it), write_polygon(sink, &it, &LITTLE))
        }
        Kind::MultiPoint => {
            let it = multi_point_of(dim, &points)?;
            told(
                multi_point_wkb_size(&it),
                write_multi_point(sink, &it, &LITTLE),
            )
        }
        Kind::MultiLineString => {
            let it = multi_line_string_of(dim, &rings)?;
            told(
                multi_line_string_wkb_size(&it),
                write_multi_line_string(sink, &it, &LITTLE),
            )
        }
        Kind::MultiPolygon => {
            let polygons = [polygon_of(dim, &rings)?; 2];
            let it = multi_polygon_of(dim, &polygons)?;
            told(
                multi_polygon_wkb_size(&it),
                write_multi_polygon(sink, &it, &LITTLE),
            )
        }
        Kind::GeometryCollection => {
            let (first, second) = (Geometry::Point(point), Geometry::LineString(line_string));
            match &collection_of_two(alloc, dim, first, second)? {
                Geometry::GeometryCollection(it) => collection(sink, it),
                _ => Err(Fail::new("no collection")),
            }
        }
        Kind::Rect => {
            let it = rect()?;
            told(rect_wkb_size(&it), write_rect(sink, &it, &LITTLE))
        }
        Kind::Triangle => {
            let it = triangle_of(coord, coord, coord)?;
            told(triangle_wkb_size(&it), write_triangle(sink, &it, &LITTLE))
        }
        Kind::Line => {
            let it = line_of(coord, coord)?;
            told(line_wkb_size(&it), write_line(sink, &it, &LITTLE))
        }
        Kind::Any => any(sink, &Geometry::Point(point)),
    }
}
