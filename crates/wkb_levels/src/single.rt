//! A geometry of one of the kinds that the writers make in one way.

ghost use Rattle.wkb_levels.specs.Meant.{single_dimensions, single_meant};
ghost use Rattle.wkb_levels.specs.Lawful.{single_lawful, single_has_one_dimension};

use crate::points::Points;
use crate::rings::Rings;
use wkb_geom::{Dimensioned, Dimensions, GeometryTrait, GeometryType};
use wkb_plain::{Line, LineString, MultiPolygon, Point, Rect, Triangle};

/// A row that is no multi polygon.
#[derive(Debug, Clone, Copy)]
pub enum Single<'w> {
    Point(Point<'w>),
    LineString(LineString<'w>),
    Polygon(Rings<'w>),
    MultiPoint(Points<'w>),
    MultiLineString(Rings<'w>),
}

impl Dimensioned for Single<'_> {
    ghost dimensions = { single_dimensions };

    fn dim(&self) -> Dimensions {
        match self {
            Single::Point(p) => p.dim(),
            Single::LineString(l) => l.dim(),
            Single::Polygon(p) => p.dim(),
            Single::MultiPoint(m) => m.dim(),
            Single::MultiLineString(m) => m.dim(),
        }
    }
}

impl<'w> GeometryTrait for Single<'w> {
    type PointType = Point<'w>;

    type LineStringType = LineString<'w>;

    type PolygonType = Rings<'w>;

    type MultiPointType = Points<'w>;

    type MultiLineStringType = Rings<'w>;

    type MultiPolygonType = MultiPolygon<'w>;

    type RectType = Rect<'w>;

    type TriangleType = Triangle<'w>;

    type LineType = Line<'w>;

    ghost geometry = { single_meant };

    ghost one_dimension = { single_has_one_dimension };

    ghost lawful = { single_lawful };

    fn as_type(
        &self,
    ) -> GeometryType<
        '_,
        Point<'w>,
        LineString<'w>,
        Rings<'w>,
        Points<'w>,
        Rings<'w>,
        MultiPolygon<'w>,
        Single<'w>,
        Rect<'w>,
        Triangle<'w>,
        Line<'w>,
    > {
        match self {
            Single::Point(p) => GeometryType::Point(p),
            Single::LineString(l) => GeometryType::LineString(l),
            Single::Polygon(p) => GeometryType::Polygon(p),
            Single::MultiPoint(m) => GeometryType::MultiPoint(m),
            Single::MultiLineString(m) => GeometryType::MultiLineString(m),
        }
    }
}
