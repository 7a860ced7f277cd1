//! The reader: a geometry at the start of some bytes, as a view that borrows them.

pub use wkb_geom::Dimension;
pub use wkb_read::geometry::{GeometryCollection, Wkb};
pub use wkb_read::geometry_type::GeometryType;
pub use wkb_read::read::{MAX_WKB_NESTING_DEPTH, read_wkb, read_wkb_counted};
pub use wkb_view::coord::Coord;
pub use wkb_view::counts::Counts;
pub use wkb_view::line_string::LineString;
pub use wkb_view::linear_ring::LinearRing;
pub use wkb_view::multi_line_string::MultiLineString;
pub use wkb_view::multi_point::MultiPoint;
pub use wkb_view::multi_polygon::MultiPolygon;
pub use wkb_view::point::Point;
pub use wkb_view::polygon::Polygon;
