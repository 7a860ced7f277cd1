//! A ring of a polygon.

ghost use Rattle.std.specs.Prelude.{◌≡◌, ℕ, ◌≤◌, length};
ghost use Rattle.wkb_view.specs.Prelude.{ring_end, AreBytes, number};

use crate::any::{Line, MultiLineString, MultiPoint, MultiPolygon, Point, Polygon, Rect, Triangle};
use crate::coord::Coord;
use crate::ends::Parts;
use crate::part::subslice;
use wkb_geom::words::{COUNT_SIZE, WORD_SIZE};
use wkb_geom::{
    Cause, Dimension, Dimensioned, Dimensions, Endianness, Form, GeometryTrait, GeometryType,
    Layout, LineStringTrait,
};

/// A ring: a count and that many coordinates, in its polygon's order and dimension.
#[derive(Clone, Copy, Debug)]
pub struct LinearRing<'a> {
    pub(crate) bytes: &'a [u8],
    pub(crate) order: Endianness,
    pub(crate) dimension: Dimension,
    pub(crate) count: u32,
    ghost counted: { count ≡ number order 4 bytes.now },
    ghost whole: { length bytes.now ≡ ring_end dimension count },
    ghost in_range: { AreBytes bytes.now },
}

impl<'a> LinearRing<'a> {
    ghost use Rattle.std.specs.Prelude.{◌≡◌, length, ◌≤◌, drop};
    ghost use Rattle.wkb_view.specs.Coords.{ring_encoding, ring_order, ring_dimension, ring_seen};
    ghost use Rattle.wkb_view.specs.Coords.{ring_offset, RingBytesSpell};
    ghost use Rattle.wkb_view.specs.Prelude.{AreBytes, ring_end, ring_in};
    ghost use Rattle.wkb_view.specs.Pieces.{IsRingPart};

    /// The ring of these bytes.
    #[tactic(auto, using(crate::proofs::Items::number_laws))]
    #[inline]
    pub(crate) fn of_encoding(
        order: Endianness,
        dimension: Dimension,
        bytes: &'a [u8],
    ) -> LinearRing<'a>
        requires { IsRingPart order dimension bytes.now }
        ensures seen { ring_seen result ≡ ring_in order dimension bytes.now }
        ensures order { ring_order result ≡ order }
        ensures dimension { ring_dimension result ≡ dimension }
    {
        LinearRing {
            bytes,
            order,
            dimension,
            count: count_of_size(dimension, bytes.len()) as u32,
        }
    }

    /// The number of its bytes: of its count and its coordinates.
    #[tactic(auto, using(crate::proofs::Items::ring_counted))]
    #[inline]
    pub fn size(&self) -> u64
        ensures bytes { result ≡ length (ring_encoding self.now) }
        ensures end { result ≡ ring_end (ring_dimension self.now) (length (ring_seen self.now)) }
    {
        self.bytes.len() as u64
    }

    /// The offset at which a coordinate begins in its bytes.
    #[tactic(auto, using(crate::proofs::Items::ring_counted, crate::proofs::Items::few_words))]
    #[inline]
    pub fn coord_offset(&self, i: u64) -> u64
        requires { i ≤ length (ring_seen self.now) }
        ensures { result ≡ ring_offset self.now i }
    {
        COUNT_SIZE as u64 + self.dimension.coordinate_size() as u64 * i
    }

    /// Its dimension.
    #[inline]
    pub fn dimension(&self) -> Dimension
        ensures { result ≡ ring_dimension self.now }
    {
        self.dimension
    }

    /// The bytes of its coordinates, after the count.
    #[tactic(auto, using(wkb_laws::proofs::Bodies::coordinates_are))]
    #[inline]
    pub fn coords_slice(&self) -> &'a [u8]
        ensures encoding { result.now ≡ drop COUNT_SIZE (ring_encoding self.now) }
        ensures spells { RingBytesSpell self.now }
        ensures bytes { AreBytes (ring_encoding self.now) }
    {
        &self.bytes[COUNT_SIZE..]
    }

    /// The order of its numbers.
    #[inline]
    pub fn byte_order(&self) -> Endianness
        ensures { result ≡ ring_order self.now }
    {
        self.order
    }
}

/// The count of a ring of this many bytes. Computed from the length, so that the ring's own bytes, which may not be
/// cached, are not read. Sizes that are constants make the division a multiplication.
#[inline]
fn count_of_size(dimension: Dimension, size: usize) -> usize
    requires { COUNT_SIZE ≤ size }
    ensures { (count : ℕ) → size ≡ ring_end dimension count → result ≡ count }
{
    match dimension {
        Dimension::Xy => (size - COUNT_SIZE) / (2 * WORD_SIZE),
        Dimension::Xyz | Dimension::Xym => (size - COUNT_SIZE) / (3 * WORD_SIZE),
        Dimension::Xyzm => (size - COUNT_SIZE) / (4 * WORD_SIZE),
    }
}

/// The rings of a polygon.
pub(crate) struct RingParts;

impl Parts for RingParts {
    ghost use Rattle.wkb_geom.specs.declared.words.TheConstants.{COUNT_SIZE};
    ghost use Rattle.wkb_view.specs.Ends.{ring_parts};

    ghost MIN_SIZE = { COUNT_SIZE };

    ghost parts = { ring_parts };

    const MIN_SIZE: usize = COUNT_SIZE;

    #[tactic(auto, using(crate::proofs::Leaves::ring_passed, crate::proofs::Items::slice_laws))]
    #[inline]
    fn pass<'a>(layout: Layout, bytes: &'a [u8]) -> Result<&'a [u8], Cause> {
        let (_, end) = layout.end_of_ring(bytes)?;
        Ok(&bytes[end..])
    }
}

impl Dimensioned for LinearRing<'_> {
    ghost use Rattle.wkb_view.specs.Prelude.{as_dimensions};
    ghost use Rattle.wkb_view.specs.Coords.{ring_dimension};

    ghost dimensions = { λ r. as_dimensions (ring_dimension r) };

    #[inline]
    fn dim(&self) -> Dimensions {
        self.dimension.into()
    }
}

impl<'a> LineStringTrait for LinearRing<'a> {
    ghost use Rattle.std.specs.Prelude.{◌≡◌, length, IfSome, ◌<◌, Some, slice_get};
    ghost use Rattle.std.specs.Prelude.{IsSome, ◌↔◌};
    ghost use Rattle.wkb_geom.specs.Found.{IsItemAt};
    ghost use Rattle.wkb_view.specs.Coords.{words_seen, coord_order, coord_dimension};
    ghost use Rattle.wkb_view.specs.Coords.{LendsCoordinates};
    ghost use Rattle.wkb_view.specs.Coords.{coord_encoding, ring_order, ring_dimension, ring_seen};
    ghost use Rattle.wkb_view.specs.Coords.{ring_coord_bytes};
    ghost use Rattle.wkb_view.specs.Lawful.{ring_lawful};

    type CoordType = Coord<'a>;

    ghost coordinates = { ring_seen };

    ghost lawful = { λ r. ring_lawful r.order r.dimension r.bytes.now r.in_range };

    #[tactic(auto, using(crate::proofs::Items::ring_counted))]
    #[inline]
    fn num_coords(&self) -> usize {
        self.count as usize
    }

    #[tactic(auto, using(crate::proofs::CoordsAsWritten::ring_stands))]
    #[inline]
    fn coords_as_written(&self, order: Endianness) -> Option<&[u8]>
        ensures bytes { LendsCoordinates order (ring_seen self.now) result }
        ensures own_order { IsSome result ↔ (ring_order self.now ≡ order) }
    {
        if self.order == order {
            Some(self.coords_slice())
        } else {
            None
        }
    }

    #[inline]
    fn coord(&self, i: usize) -> Option<Coord<'a>>
        ensures value { IsItemAt words_seen result (ring_seen self.now) i }
        ensures dimension { IfSome result (λ c. coord_dimension c ≡ ring_dimension self.now) }
        ensures order { IfSome result (λ c. coord_order c ≡ ring_order self.now) }
        ensures bytes { IfSome result (λ c. coord_encoding c ≡ ring_coord_bytes self.now i) }
    {
        if i < self.num_coords() {
            Some(self.coord_at(i))
        } else {
            None
        }
    }

    #[tactic(auto, using(crate::proofs::Items::item_laws))]
    #[inline]
    fn coord_at(&self, i: usize) -> Coord<'a>
        requires { i < length (ring_seen self.now) }
        ensures value { slice_get (ring_seen self.now) i ≡ Some (words_seen result) }
        ensures dimension { coord_dimension result ≡ ring_dimension self.now }
        ensures order { coord_order result ≡ ring_order self.now }
        ensures bytes { coord_encoding result ≡ ring_coord_bytes self.now i }
    {
        let start = self.coord_offset(i as u64) as usize;
        Coord {
            bytes: subslice(self.bytes, start, self.dimension.coordinate_size()),
            order: self.order,
            dimension: self.dimension,
        }
    }
}

impl<'a> GeometryTrait for LinearRing<'a> {
    ghost use Rattle.std.specs.Prelude.{◌≡◌, refl};
    ghost use Rattle.wkb_geom.specs.declared.geom.GeometryType.TheVariants.{LineString as Handed};
    ghost use Rattle.wkb_geom.specs.Geometries.{line_string};
    ghost use Rattle.wkb_view.specs.Prelude.{as_dimensions};
    ghost use Rattle.wkb_view.specs.Coords.{ring_dimension, ring_seen};
    ghost use Rattle.wkb_view.specs.Lawful.{ring_lawful};

    type PointType = Point<'a>;

    type LineStringType = LinearRing<'a>;

    type PolygonType = Polygon<'a>;

    type MultiPointType = MultiPoint<'a>;

    type MultiLineStringType = MultiLineString<'a>;

    type MultiPolygonType = MultiPolygon<'a>;

    type RectType = Rect<'a>;

    type TriangleType = Triangle<'a>;

    type LineType = Line<'a>;

    ghost geometry = { λ r. line_string (as_dimensions (ring_dimension r)) (ring_seen r) };

    ghost one_dimension = { λ g. refl };

    ghost lawful = { λ r. ring_lawful r.order r.dimension r.bytes.now r.in_range };

    #[inline]
    fn as_type(
        &self,
    ) -> GeometryType<
        '_,
        Point<'a>,
        LinearRing<'a>,
        Polygon<'a>,
        MultiPoint<'a>,
        MultiLineString<'a>,
        MultiPolygon<'a>,
        LinearRing<'a>,
        Rect<'a>,
        Triangle<'a>,
        Line<'a>,
    >
        ensures view { result ≡ Handed self.entry }
    {
        GeometryType::LineString(self)
    }

    // Two defaults of the trait, which the check would prove again here, in some seven seconds each.
    #[inline]
    fn as_written(&self, _order: Endianness, _form: Form) -> Option<&[u8]> {
        None
    }

    #[inline]
    fn byte_size(&self) -> Option<usize> {
        None
    }
}
