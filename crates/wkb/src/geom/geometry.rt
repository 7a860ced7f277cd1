//! A plain geometry of any kind, and collections of them.

ghost use Rattle.std.specs.Prelude.{◌≡◌, map};
ghost use Rattle.wkb.specs.PlainGeometry.{plain_geometry, plain_dimensions, collection_dimensions};
ghost use Rattle.wkb.specs.PlainGeometry.{collection_members};
ghost use Rattle.wkb.specs.LawfulPlain.{dimensions_of-plain_geometry, IsGeometry-plain_geometry};
ghost use Rattle.wkb.specs.LawfulPlain.{collection_lawful};

use wkb_geom::{
    Dimensioned, Dimensions, Endianness, Form, GeometryCollectionTrait, GeometryTrait, GeometryType,
};
use wkb_plain::{
    Line, LineString, MultiLineString, MultiPoint, MultiPolygon, Point, Polygon, Rect, Triangle,
};

/// A plain geometry of any kind.
#[cycle(geometry)]
#[derive(Debug, Drop)]
pub enum Geometry<'w> {
    /// A point.
    Point(Point<'w>),
    /// A line string.
    LineString(LineString<'w>),
    /// A polygon.
    Polygon(Polygon<'w>),
    /// A multi point.
    MultiPoint(MultiPoint<'w>),
    /// A multi line string.
    MultiLineString(MultiLineString<'w>),
    /// A multi polygon.
    MultiPolygon(MultiPolygon<'w>),
    /// A collection.
    GeometryCollection(GeometryCollection<'w>),
    /// A rectangle.
    Rect(Rect<'w>),
    /// A triangle.
    Triangle(Triangle<'w>),
    /// A line.
    Line(Line<'w>),
}

/// Geometries of any kinds and dimensions. It holds the list of its members, and so is neither
/// `Copy` nor `Clone`.
#[cycle(geometry)]
#[derive(Debug)]
pub struct GeometryCollection<'w> {
    dim: Dimensions,
    members: Vec<Geometry<'w>>,
}

// By a function of its own: a derived one would be written out, and proved, wherever a geometry is let go.
impl Drop for GeometryCollection<'_> {
    #[cycle(geometry)]
    #[inline]
    fn drop(self) {
        let GeometryCollection { dim: _, members: _ } = self;
    }
}

impl<'w> GeometryCollection<'w> {
    /// The collection of these members, of any kinds and dimensions.
    pub fn new(dim: Dimensions, members: Vec<Geometry<'w>>) -> GeometryCollection<'w>
        ensures dimensions { collection_dimensions result ≡ dim }
        ensures members { collection_members result ≡ map plain_geometry members.entry.items }
    {
        GeometryCollection { dim, members }
    }
}

impl Dimensioned for GeometryCollection<'_> {
    ghost dimensions = { collection_dimensions };

    fn dim(&self) -> Dimensions {
        self.dim
    }
}

impl<'w> GeometryCollectionTrait for GeometryCollection<'w> {
    type GeometryType = Geometry<'w>;

    ghost members = { collection_members };

    ghost lawful = { collection_lawful };

    fn geometries(&self) -> &[Geometry<'w>] {
        self.members.as_slice()
    }

    fn num_geometries(&self) -> usize {
        self.members.len()
    }

    fn geometry(&self, i: usize) -> Option<&Geometry<'w>> {
        self.members.get(i)
    }
}

impl Dimensioned for Geometry<'_> {
    ghost dimensions = { plain_dimensions };

    fn dim(&self) -> Dimensions {
        match self {
            Geometry::Point(p) => p.dim(),
            Geometry::LineString(l) => l.dim(),
            Geometry::Polygon(p) => p.dim(),
            Geometry::MultiPoint(m) => m.dim(),
            Geometry::MultiLineString(m) => m.dim(),
            Geometry::MultiPolygon(m) => m.dim(),
            Geometry::GeometryCollection(c) => c.dim,
            Geometry::Rect(r) => r.dim(),
            Geometry::Triangle(t) => t.dim(),
            Geometry::Line(l) => l.dim(),
        }
    }
}

impl<'w> GeometryTrait for Geometry<'w> {
    type PointType = Point<'w>;

    type LineStringType = LineString<'w>;

    type PolygonType = Polygon<'w>;

    type MultiPointType = MultiPoint<'w>;

    type MultiLineStringType = MultiLineString<'w>;

    type MultiPolygonType = MultiPolygon<'w>;

    type RectType = Rect<'w>;

    type TriangleType = Triangle<'w>;

    type LineType = Line<'w>;

    ghost geometry = { plain_geometry };

    ghost one_dimension = { dimensions_of-plain_geometry };

    ghost lawful = { IsGeometry-plain_geometry };

    fn as_type(
        &self,
    ) -> GeometryType<
        '_,
        Point<'w>,
        LineString<'w>,
        Polygon<'w>,
        MultiPoint<'w>,
        MultiLineString<'w>,
        MultiPolygon<'w>,
        Geometry<'w>,
        Rect<'w>,
        Triangle<'w>,
        Line<'w>,
    > {
        match self {
            Geometry::Point(p) => GeometryType::Point(p),
            Geometry::LineString(l) => GeometryType::LineString(l),
            Geometry::Polygon(p) => GeometryType::Polygon(p),
            Geometry::MultiPoint(m) => GeometryType::MultiPoint(m),
            Geometry::MultiLineString(m) => GeometryType::MultiLineString(m),
            Geometry::MultiPolygon(m) => GeometryType::MultiPolygon(m),
            Geometry::GeometryCollection(c) => {
                GeometryType::GeometryCollection(c.members.as_slice())
            }
            Geometry::Rect(r) => GeometryType::Rect(r),
            Geometry::Triangle(t) => GeometryType::Triangle(t),
            Geometry::Line(l) => GeometryType::Line(l),
        }
    }

    // The trait's default says the same, but the check would prove it again here, in some ten seconds.
    #[inline]
    fn as_written(&self, _order: Endianness, _form: Form) -> Option<&[u8]> {
        None
    }
}
