//! The kinds of geometry.

/// The kind of a geometry that was read.
#[derive(Clone, Copy, Debug, PartialEq, Eq, Hash)]
pub enum GeometryType {
    /// A point.
    Point,
    /// A line string.
    LineString,
    /// A polygon.
    Polygon,
    /// A multi point.
    MultiPoint,
    /// A multi line string.
    MultiLineString,
    /// A multi polygon.
    MultiPolygon,
    /// A collection.
    GeometryCollection,
}
