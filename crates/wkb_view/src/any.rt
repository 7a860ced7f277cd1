//! A geometry of any kind, as the traits' `as_type` returns it. Bytes hold no rectangle, triangle or line, so no view
//! returns one: for these three the types of the plain geometries are named.

pub(crate) use crate::line_string::LineString;
pub(crate) use crate::multi_line_string::MultiLineString;
pub(crate) use crate::multi_point::MultiPoint;
pub(crate) use crate::multi_polygon::MultiPolygon;
pub(crate) use crate::point::Point;
pub(crate) use crate::polygon::Polygon;
use wkb_geom::GeometryType;
pub(crate) use wkb_plain::{Line, Rect, Triangle};

/// What `as_type` of a view returns; `G` is the type of a collection's members.
pub type AnyView<'b, 'a, G> = GeometryType<
    'b,
    Point<'a>,
    LineString<'a>,
    Polygon<'a>,
    MultiPoint<'a>,
    MultiLineString<'a>,
    MultiPolygon<'a>,
    G,
    Rect<'a>,
    Triangle<'a>,
    Line<'a>,
>;
