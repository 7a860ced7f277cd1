//! The traits of geometries, modelled on `geo-traits`. The ghost members of an implementation name the value that its
//! calls return the parts of. At each `impl` it is proved that they do, and that the parts have the dimension of the
//! whole. An ordinate is the 64 bits of a binary64, never a float.

ghost use Rattle.std.specs.Prelude.{◌≡◌, ℕ, ◌+◌, ◌-◌, ◌<◌, ◌≤◌, List, length, map, All, slice_get};
ghost use Rattle.std.specs.Prelude.{Option, IfSome, slice_index};
ghost use Rattle.std.specs.Option.{option_map};
ghost use Rattle.std.specs.List.{AllByRecursion, flat_map, concat};
ghost use Rattle.wkb_geom.specs.declared.common.Dimensions.{Dimensions};
ghost use Rattle.wkb_geom.specs.Dimensions.{size};
ghost use Rattle.wkb_geom.specs.Found.{IsItemAt, HasDimensions, IsOfWritable};
ghost use Rattle.wkb_geom.specs.Geometries.{Geometry, dimensions_of, geometries, polygon, IsCoordinate};
ghost use Rattle.wkb_geom.specs.Geometries.{IsPoint, AreCoordinates, IsGeometry, AreGeometries};
ghost use Rattle.wkb_geom.specs.Sizes.{byte_size, rings_size};
ghost use Rattle.wkb_geom.specs.Parts.{PointMeans, LineStringMeans, PolygonMeans, MultiPointMeans};
ghost use Rattle.wkb_geom.specs.Parts.{MultiLineStringMeans, MultiPolygonMeans, CollectionMeans};
ghost use Rattle.wkb_geom.specs.Parts.{RectMeans, TriangleMeans, LineMeans};
ghost use Rattle.wkb_geom.specs.Encodings.{words_encoding, encoding};

use crate::{Dimensions, Endianness, Form};

/// What has a dimension.
pub trait Dimensioned: Drop {
    ghost dimensions: { Self → Dimensions };

    /// The dimension of each coordinate.
    fn dim(&self) -> Dimensions
        ensures { result ≡ dimensions self.now };
}

/// A coordinate: for each of its numbers a word, which is the number's bits (`to_bits`).
pub trait CoordTrait: Dimensioned {
    // The words of the coordinate, in order: bits of doubles, and no floats (docs/DECISIONS.md, D1).
    ghost words: { Self → List ℕ };

    /// The word at an index, if there is one.
    fn nth(&self, n: usize) -> Option<u64>
        ensures { result ≡ slice_get (words self.now) n };

    /// The word at an index, which has to be below the size of its dimension.
    fn at(&self, n: usize) -> u64
        requires { n < size (Self.dimensions self.now) }
        ensures { result ≡ slice_index (words self.now) n };

    /// The first word.
    fn x(&self) -> u64
        requires { 2 ≤ size (Self.dimensions self.now) }
        ensures { result ≡ slice_index (words self.now) 0 };

    /// The second word.
    fn y(&self) -> u64
        requires { 2 ≤ size (Self.dimensions self.now) }
        ensures { result ≡ slice_index (words self.now) 1 };

    /// The first two words.
    fn x_y(&self) -> (u64, u64)
        requires { 2 ≤ size (Self.dimensions self.now) }
        ensures x { result.0 ≡ slice_index (words self.now) 0 }
        ensures y { result.1 ≡ slice_index (words self.now) 1 };

    // As many words as the dimension has, each of 64 bits.
    ghost lawful: { (c : Self) → IsCoordinate (Self.dimensions c) (words c) };
}

/// A point, which may be empty.
///
/// `Place`, a longitude and a latitude, is a point by this implementation, and a coordinate by another. The whole is in
/// `crates/wkb_cases/src/places.rt`, and for Rust on the page of the module `geom`.
///
/// ```rust
/// impl PointTrait for Place {
///     type CoordType = Place;
///
///     ghost coordinate = { λ place. Some (place_words place) };
///
///     ghost lawful = { place_lawful };
///
///     fn coord(&self) -> Option<Place> {
///         Some(*self)
///     }
/// }
/// ```
pub trait PointTrait: Dimensioned {
    /// The type of its coordinates.
    type CoordType: CoordTrait;

    // The words of the coordinate; None of an empty point.
    ghost coordinate: { Self → Option (List ℕ) };

    /// The coordinate; none of an empty point.
    fn coord(&self) -> Option<Self::CoordType>
        ensures value { option_map Self.CoordType.words result ≡ coordinate self.now }
        ensures dimensions { HasDimensions Self.CoordType.dimensions result
            (Self.dimensions self.now) };

    ghost lawful: { (p : Self) → IsPoint (Self.dimensions p) (coordinate p) };
}

/// A line string, or a ring of a polygon.
pub trait LineStringTrait: Dimensioned {
    /// The type of its coordinates.
    type CoordType: CoordTrait;

    // The words of each coordinate, in order.
    ghost coordinates: { Self → List (List ℕ) };

    /// The number of coordinates.
    fn num_coords(&self) -> usize
        ensures { result ≡ length (coordinates self.now) };

    /// The coordinate at an index, if there is one.
    fn coord(&self, i: usize) -> Option<Self::CoordType>
        ensures value { IsItemAt Self.CoordType.words result (coordinates self.now) i }
        ensures dimensions { HasDimensions Self.CoordType.dimensions result
            (Self.dimensions self.now) };

    /// The coordinate at an index, which has to be below `num_coords`.
    fn coord_at(&self, i: usize) -> Self::CoordType
        requires { i < length (coordinates self.now) }
        ensures value { slice_get (coordinates self.now) i ≡ Some (Self.CoordType.words result) }
        ensures dimensions { Self.CoordType.dimensions result ≡ Self.dimensions self.now };

    /// The coordinates as they are written in this order, without a count, if they are in memory in exactly these
    /// bytes.
    ///
    /// Bytes that are borrowed here are written in one copy. An implementation may leave this method out: the writer
    /// then asks for each coordinate.
    #[inline]
    fn coords_as_written(&self, order: Endianness) -> Option<&[u8]>
        ensures { IfSome result (λ b. b.now ≡
            flat_map (words_encoding order) (coordinates self.now)) }
    {
        None
    }

    /// The words of all coordinates, one after another, if they are in memory so.
    ///
    /// Words that are borrowed here are written by one loop. An implementation may leave this method out: the writer
    /// then asks for each coordinate.
    #[inline]
    fn coords_as_words(&self) -> Option<&[u64]>
        ensures { IfSome result (λ words. words.now ≡ concat (coordinates self.now)) }
    {
        None
    }

    ghost lawful: { (l : Self) → AreCoordinates (Self.dimensions l) (coordinates l) };
}

/// A polygon: an exterior ring and the interiors, or no ring at all.
pub trait PolygonTrait: Dimensioned {
    /// The type of its rings.
    type RingType: LineStringTrait;

    // The rings, the exterior first: without one there are no interiors.
    ghost rings: { Self → List (List (List ℕ)) };

    /// The number of interiors, 0 where there is no exterior.
    fn num_interiors(&self) -> usize
        ensures { result ≡ length (rings self.now) - 1 };

    /// The exterior ring, if the polygon has rings.
    fn exterior(&self) -> Option<Self::RingType>
        ensures value { IsItemAt Self.RingType.coordinates result (rings self.now) 0 }
        ensures dimensions { HasDimensions Self.RingType.dimensions result
            (Self.dimensions self.now) };

    /// The interior at an index, if there is one.
    fn interior(&self, i: usize) -> Option<Self::RingType>
        ensures value { IsItemAt Self.RingType.coordinates result (rings self.now) (i + 1) }
        ensures dimensions { HasDimensions Self.RingType.dimensions result
            (Self.dimensions self.now) };

    /// The size of the encoding without its header, in bytes, if it is known without a look at each ring.
    ///
    /// None, too, where the polygon can't be written. An implementation may leave this method out: the writer then
    /// measures each ring.
    #[inline]
    fn rings_size(&self) -> Option<usize>
        ensures size { IfSome result (λ n. n ≡
            rings_size (Self.dimensions self.now) (rings self.now)) }
        ensures writable { IsOfWritable result
            (polygon (Self.dimensions self.now) (rings self.now)) }
    {
        None
    }

    ghost lawful: { (p : Self) → AllByRecursion (AreCoordinates (Self.dimensions p)) (rings p) };
}

/// Points of one dimension.
pub trait MultiPointTrait: Dimensioned {
    /// The type of its points.
    type InnerPointType: PointTrait;

    // The words of each point, in order; None of an empty one.
    ghost points: { Self → List (Option (List ℕ)) };

    /// The number of points.
    fn num_points(&self) -> usize
        ensures { result ≡ length (points self.now) };

    /// The point at an index, if there is one.
    fn point(&self, i: usize) -> Option<Self::InnerPointType>
        ensures value { IsItemAt Self.InnerPointType.coordinate result (points self.now) i }
        ensures dimensions { HasDimensions Self.InnerPointType.dimensions
            result (Self.dimensions self.now) };

    ghost lawful: { (m : Self) → AllByRecursion (IsPoint (Self.dimensions m)) (points m) };
}

/// Line strings of one dimension.
pub trait MultiLineStringTrait: Dimensioned {
    /// The type of its line strings.
    type InnerLineStringType: LineStringTrait;

    // The coordinates of each line string, in order.
    ghost line_strings: { Self → List (List (List ℕ)) };

    /// The number of line strings.
    fn num_line_strings(&self) -> usize
        ensures { result ≡ length (line_strings self.now) };

    /// The line string at an index, if there is one.
    fn line_string(&self, i: usize) -> Option<Self::InnerLineStringType>
        ensures value { IsItemAt Self.InnerLineStringType.coordinates result
            (line_strings self.now) i }
        ensures dimensions { HasDimensions Self.InnerLineStringType.dimensions
            result (Self.dimensions self.now) };

    ghost lawful: { (m : Self)
        → AllByRecursion (AreCoordinates (Self.dimensions m)) (line_strings m) };
}

/// Polygons of one dimension, which it holds: they are returned by reference.
// A polygon type that contains references to types with ghost fields must be an enum, or have a ghost field itself: the
// checker takes no `Option` of a reference to another struct of this sort.
pub trait MultiPolygonTrait: Dimensioned {
    /// The type of its polygons.
    type InnerPolygonType: PolygonTrait;

    // The rings of each polygon, in order.
    ghost polygons: { Self → List (List (List (List ℕ))) };

    /// The number of polygons.
    fn num_polygons(&self) -> usize
        ensures { result ≡ length (polygons self.now) };

    /// The polygon at an index, if there is one.
    fn polygon(&self, i: usize) -> Option<&Self::InnerPolygonType>
        ensures value { IsItemAt (λ p. Self.InnerPolygonType.rings p.now) result
            (polygons self.now) i }
        ensures dimensions { HasDimensions (λ p. Self.InnerPolygonType.dimensions p.now)
            result (Self.dimensions self.now) };

    ghost lawful: { (m : Self)
        → AllByRecursion (AllByRecursion (AreCoordinates (Self.dimensions m))) (polygons m) };
}

/// Geometries of any kind and dimension, which it holds: they are returned by reference.
// What is said above of a polygon's type holds for that of the members as well.
pub trait GeometryCollectionTrait: Dimensioned {
    /// The type of its members.
    type GeometryType: GeometryTrait;

    // What each member means, in order.
    ghost members: { Self → List Geometry };

    /// The members, in order.
    fn geometries(&self) -> &[Self::GeometryType]
        ensures { map Self.GeometryType.geometry result.now ≡ members self.now };

    /// The number of members.
    fn num_geometries(&self) -> usize
        ensures { result ≡ length (members self.now) };

    /// The member at an index, if there is one.
    fn geometry(&self, i: usize) -> Option<&Self::GeometryType>
        ensures { IsItemAt (λ g. Self.GeometryType.geometry g.now) result (members self.now) i };

    ghost lawful: { (c : Self) → AreGeometries (geometries (members c)) };
}

/// A line from one coordinate to another.
pub trait LineTrait: Dimensioned {
    /// The type of its coordinates.
    type CoordType: CoordTrait;

    ghost start_words: { Self → List ℕ };

    ghost end_words: { Self → List ℕ };

    /// Where it starts.
    fn start(&self) -> Self::CoordType
        ensures value { Self.CoordType.words result ≡ start_words self.now }
        ensures dimensions { Self.CoordType.dimensions result ≡ Self.dimensions self.now };

    /// Where it ends.
    fn end(&self) -> Self::CoordType
        ensures value { Self.CoordType.words result ≡ end_words self.now }
        ensures dimensions { Self.CoordType.dimensions result ≡ Self.dimensions self.now };

    ghost lawful: { (l : Self) → IsCoordinate (Self.dimensions l) (start_words l)
        × IsCoordinate (Self.dimensions l) (end_words l) };
}

/// A rectangle between two corners. Only x and y of them are written.
pub trait RectTrait: Dimensioned {
    /// The type of its coordinates.
    type CoordType: CoordTrait;

    ghost min_words: { Self → List ℕ };

    ghost max_words: { Self → List ℕ };

    /// The corner with the least ordinates.
    fn min(&self) -> Self::CoordType
        ensures value { Self.CoordType.words result ≡ min_words self.now }
        ensures dimensions { Self.CoordType.dimensions result ≡ Self.dimensions self.now };

    /// The corner with the greatest ordinates.
    fn max(&self) -> Self::CoordType
        ensures value { Self.CoordType.words result ≡ max_words self.now }
        ensures dimensions { Self.CoordType.dimensions result ≡ Self.dimensions self.now };

    ghost lawful: { (r : Self) → IsCoordinate (Self.dimensions r) (min_words r)
        × IsCoordinate (Self.dimensions r) (max_words r) };
}

/// A triangle by its corners.
pub trait TriangleTrait: Dimensioned {
    /// The type of its coordinates.
    type CoordType: CoordTrait;

    ghost first_words: { Self → List ℕ };

    ghost second_words: { Self → List ℕ };

    ghost third_words: { Self → List ℕ };

    /// The first corner.
    fn first(&self) -> Self::CoordType
        ensures value { Self.CoordType.words result ≡ first_words self.now }
        ensures dimensions { Self.CoordType.dimensions result ≡ Self.dimensions self.now };

    /// The second corner.
    fn second(&self) -> Self::CoordType
        ensures value { Self.CoordType.words result ≡ second_words self.now }
        ensures dimensions { Self.CoordType.dimensions result ≡ Self.dimensions self.now };

    /// The third corner.
    fn third(&self) -> Self::CoordType
        ensures value { Self.CoordType.words result ≡ third_words self.now }
        ensures dimensions { Self.CoordType.dimensions result ≡ Self.dimensions self.now };

    ghost lawful: { (t : Self) → IsCoordinate (Self.dimensions t) (first_words t)
        × IsCoordinate (Self.dimensions t) (second_words t)
        × IsCoordinate (Self.dimensions t) (third_words t) };
}

/// A geometry by its kind. The dimension of a collection is that of the geometry itself.
#[derive(Debug, Drop)]
pub enum GeometryType<'a, P, L, Y, MP, ML, MY, G, R, T, N> {
    /// A point.
    Point(&'a P),
    /// A line string.
    LineString(&'a L),
    /// A polygon.
    Polygon(&'a Y),
    /// A multi point.
    MultiPoint(&'a MP),
    /// A multi line string.
    MultiLineString(&'a ML),
    /// A multi polygon.
    MultiPolygon(&'a MY),
    /// The members of a collection.
    GeometryCollection(&'a [G]),
    /// A rectangle.
    Rect(&'a R),
    /// A triangle.
    Triangle(&'a T),
    /// A line.
    Line(&'a N),
}

/// A geometry of any kind.
pub trait GeometryTrait: Dimensioned + Sized {
    /// The type of points.
    type PointType: PointTrait;

    /// That of line strings.
    type LineStringType: LineStringTrait;

    /// That of polygons.
    type PolygonType: PolygonTrait;

    /// That of multi points.
    type MultiPointType: MultiPointTrait;

    /// That of multi line strings.
    type MultiLineStringType: MultiLineStringTrait;

    /// That of multi polygons.
    type MultiPolygonType: MultiPolygonTrait;

    /// That of rectangles.
    type RectType: RectTrait;

    /// That of triangles.
    type TriangleType: TriangleTrait;

    /// That of lines.
    type LineType: LineTrait;

    // What the geometry means, with all its parts.
    ghost geometry: { Self → Geometry };

    /// The geometry as its kind, with what that kind holds.
    fn as_type(
        &self,
    ) -> GeometryType<
        '_,
        Self::PointType,
        Self::LineStringType,
        Self::PolygonType,
        Self::MultiPointType,
        Self::MultiLineStringType,
        Self::MultiPolygonType,
        Self,
        Self::RectType,
        Self::TriangleType,
        Self::LineType,
    >
        ensures point { PointMeans Self.PointType.PointTrait result (geometry self.now) }
        ensures line_string { LineStringMeans Self.LineStringType.LineStringTrait result
            (geometry self.now) }
        ensures polygon { PolygonMeans Self.PolygonType.PolygonTrait result (geometry self.now) }
        ensures multi_point { MultiPointMeans Self.MultiPointType.MultiPointTrait result
            (geometry self.now) }
        ensures multi_line_string { MultiLineStringMeans Self.MultiLineStringType.MultiLineStringTrait
            result (geometry self.now) }
        ensures multi_polygon { MultiPolygonMeans Self.MultiPolygonType.MultiPolygonTrait
            result (geometry self.now) }
        ensures collection { CollectionMeans (Self.dimensions self.now) geometry result
            (geometry self.now) }
        ensures rect { RectMeans Self.RectType.RectTrait result (geometry self.now) }
        ensures triangle { TriangleMeans Self.TriangleType.TriangleTrait result
            (geometry self.now) }
        ensures line { LineMeans Self.LineType.LineTrait result (geometry self.now) };

    /// The whole encoding in this order and form, if it is in memory in exactly these bytes.
    ///
    /// Bytes that are borrowed here are written in one copy. An implementation may leave this method out: the geometry
    /// is then written by its parts.
    #[inline]
    fn as_written(&self, order: Endianness, form: Form) -> Option<&[u8]>
        ensures encoding { IfSome result (λ b. b.now ≡ encoding order form (geometry self.now)) }
        ensures writable { IsOfWritable result (geometry self.now) }
    {
        None
    }

    /// The size of the encoding in ISO codes, in bytes, if it is known without a look at each part.
    ///
    /// None, too, where the geometry can't be written. An implementation may leave this method out: the writer then
    /// measures each part.
    #[inline]
    fn byte_size(&self) -> Option<usize>
        ensures size { IfSome result (λ n. n ≡ byte_size (geometry self.now)) }
        ensures writable { IsOfWritable result (geometry self.now) }
    {
        None
    }

    // What it means has the dimension that `dim` returns.
    ghost one_dimension: { (g : Self) → dimensions_of (geometry g) ≡ Self.dimensions g };

    // Every coordinate fits the dimension.
    ghost lawful: { (g : Self) → IsGeometry (geometry g) };
}
