//! A polygon.

ghost use Rattle.wkb_view.specs.Prelude.{as_dimensions};

use crate::any::{
    AnyView, Line, LineString, MultiLineString, MultiPoint, MultiPolygon, Point, Rect, Triangle,
};
use crate::as_written::{AsWritten, flags_without_srid};
use crate::counts::Counts;
use crate::ends::read_ends;
use crate::lent::are_bytes;
use crate::linear_ring::{LinearRing, RingParts};
use crate::own_srid::OwnSrid;
use crate::part::part_at;
use std::alloc::{AllocError, Global};
use std::marker::Model;
use wkb_geom::code::WkbType;
use wkb_geom::header::MIN_MEMBER_SIZE;
use wkb_geom::words::{COUNT_SIZE, WORD_SIZE};
use wkb_geom::{
    Dimension, Dimensioned, Dimensions, Endianness, Form, GeometryTrait, GeometryType, Layout,
    PolygonTrait, ReadError,
};

/// A polygon: its rings by the offsets at which they end.
#[derive(Debug, Drop)]
pub struct Polygon<'a> {
    buf: &'a [u8],
    layout: Layout,
    ends: Vec<usize>,
}

impl<'a> Model for Polygon<'a> {
    ghost use Rattle.std.specs.Prelude.{◌+◌, ◌≤◌, length, List};
    ghost use Rattle.wkb_geom.specs.Stored.{listed_code, rings_code};
    ghost use Rattle.wkb_view.specs.Prelude.{body_start, Listed, Coordinate, BytesSpell};
    ghost use Rattle.wkb_view.specs.Members.{AreRingParts, polygon_laid, polygon_seen};

    ghost Value = { Listed (List (List Coordinate)) };

    ghost coded = { listed_code rings_code };

    ghost view = { λ a. polygon_laid a.layout a.ends.items a.buf.now };

    ghost invariant = { λ a. (body_start a.layout.has_srid + 4 ≤ length a.buf.now)
        × AreRingParts a.layout a.ends.items a.buf.now
        × BytesSpell (polygon_seen (polygon_laid a.layout a.ends.items a.buf.now)) };
}

impl<'a> Polygon<'a> {
    ghost use Rattle.std.specs.Prelude.{◌≡◌, length, sum_by, IfSome, IfOk};
    ghost use Rattle.wkb_geom.specs.Found.{IsItemAt};
    ghost use Rattle.wkb_geom.specs.declared.code.WkbType.TheVariants as kinds;
    ghost use Rattle.wkb_view.specs.Prelude.{polygon_at, order_of};
    ghost use Rattle.wkb_view.specs.Coords.{ring_order, ring_dimension, ring_seen};
    ghost use Rattle.wkb_view.specs.Headers.{HasHead};
    ghost use Rattle.wkb_view.specs.Members.{polygon_seen};
    ghost use Rattle.wkb_view.specs.Outcome.{CanCount, RefusesWithoutSlots, TakesAtLeast};
    ghost use Rattle.wkb_view.specs.Reads.{ReadsPolygon};
    ghost use Rattle.wkb_view.specs.Lends.{Lends};

    /// The number of its bytes.
    #[inline]
    pub fn size(&self) -> u64
        ensures { result ≡ length self.now.encoding }
    {
        self.buf.len() as u64
    }

    /// Its dimension.
    #[inline]
    pub fn dimension(&self) -> Dimension
        ensures { result ≡ self.now.dimension }
    {
        self.layout.dimension
    }

    /// The bytes of this geometry, from its order byte to its end.
    #[inline]
    pub fn buf(&self) -> &'a [u8]
        ensures { Lends (polygon_seen self.now) result.now }
    {
        are_bytes(self.buf);
        self.buf
    }

    /// The number of coordinates of all rings, computed from the number of bytes, without visiting the rings.
    #[tactic(auto, using(crate::proofs::CoordCounts::view_counted, crate::proofs::CoordCounts::coordinates_counted))]
    pub fn num_coords(&self) -> usize
        ensures { result ≡ sum_by length self.now.parts }
    {
        let bytes = self.layout.length_after_header(self.buf)
            - COUNT_SIZE
            - COUNT_SIZE * self.num_rings();
        bytes / (WORD_SIZE * self.layout.dimension.width())
    }

    /// The number of rings.
    #[tactic(auto, using(crate::proofs::Pieces::parts_counted))]
    pub fn num_rings(&self) -> usize
        ensures { result ≡ length self.now.parts }
    {
        self.ends.len()
    }

    /// The ring at an index, read again from the bytes between two ends.
    #[tactic(auto, using(crate::proofs::Pieces::piece_laws))]
    pub(crate) fn ring(&self, i: usize) -> Option<LinearRing<'a>>
        ensures value { IsItemAt ring_seen result self.now.parts i }
        ensures dimension { IfSome result (λ r. ring_dimension r ≡ self.now.dimension) }
        ensures order { IfSome result (λ r. ring_order r ≡ order_of self.now.spelled) }
    {
        let bytes = part_at(
            self.buf,
            self.layout.header_length() + COUNT_SIZE,
            &self.ends,
            i,
        )?;
        Some(LinearRing::of_encoding(self.layout.order, self.layout.dimension, bytes))
    }

    /// The polygon after this header, and the bytes after it.
    #[tactic(auto, unfolding(wkb_geom::specs::Reading::polygon_at))]
    #[inline(always)]
    pub fn read(
        alloc: Global,
        layout: Layout,
        bytes: &'a [u8],
        counts: &mut Counts,
    ) -> Result<(Polygon<'a>, &'a [u8]), ReadError>
        requires fits { CanCount counts.old (polygon_at layout bytes.now).0 }
        requires head { HasHead (λ d. kinds.Polygon d) layout bytes.now }
        ensures dimension { IfOk result (λ x. x.0.dimension ≡ layout.dimension) }
        ensures answer { ReadsPolygon layout bytes.now result counts.old counts.new }
        ensures shorter { IfOk result (TakesAtLeast MIN_MEMBER_SIZE bytes.now) }
        ensures no_memory { RefusesWithoutSlots (polygon_at layout bytes.now) result }
    {
        let (ends, rest) = read_ends::<RingParts>(alloc, layout, bytes, counts)?;
        let polygon = Polygon {
            buf: &bytes[..bytes.len() - rest.len()],
            layout,
            ends,
        };
        Ok((polygon, rest))
    }
}

/// A copy with a list of its own.
impl<'a> Clone for Polygon<'a> {
    ghost use Rattle.std.specs.Prelude.{◌≡◌};

    ghost is_clone = { λ polygon copy. copy ≡ polygon };

    fn clone(&self) -> Result<Polygon<'a>, AllocError> {
        Ok(Polygon {
            buf: self.buf,
            layout: self.layout,
            ends: self.ends.clone()?,
        })
    }
}

impl OwnSrid for Polygon<'_> {
    ghost spelled = { λ s. s.spelled };

    #[inline]
    fn srid(&self) -> Option<u32> {
        self.layout.srid(self.buf)
    }
}

impl AsWritten for Polygon<'_> {
    ghost use Rattle.wkb_view.specs.Members.{polygon_seen};

    ghost seen = { polygon_seen };

    #[inline]
    fn is_as_written(&self, order: Endianness, has_flags: bool) -> bool {
        let wkb_type = WkbType::Polygon(self.layout.dimension);
        self.layout.begins_as(wkb_type, self.buf, order, has_flags)
    }
}

impl Dimensioned for Polygon<'_> {
    ghost dimensions = { λ g. as_dimensions g.dimension };

    #[inline]
    fn dim(&self) -> Dimensions {
        self.layout.dimension.into()
    }
}

impl<'a> PolygonTrait for Polygon<'a> {
    ghost use Rattle.std.specs.Prelude.{◌≡◌, ◌+◌, Some, None, IfSome};
    ghost use Rattle.wkb_geom.specs.Encodings.{fault};
    ghost use Rattle.wkb_geom.specs.Found.{IsItemAt};
    ghost use Rattle.wkb_view.specs.Prelude.{as_dimensions, order_of};
    ghost use Rattle.wkb_view.specs.Coords.{ring_order, ring_dimension, ring_seen};
    ghost use Rattle.wkb_laws.specs.Fits.{fitted_parts, fitted_rings_size, fitted_polygon};
    ghost use Rattle.wkb_view.specs.Lawful.{line_strings_fit};

    type RingType = LinearRing<'a>;

    ghost rings = { fitted_parts };

    ghost lawful = { λ p. (line_strings_fit (as_dimensions p.dimension) p.parts).lawful };

    #[inline]
    fn num_interiors(&self) -> usize {
        self.num_rings().saturating_sub(1)
    }

    #[inline]
    fn exterior(&self) -> Option<LinearRing<'a>>
        ensures value { IsItemAt ring_seen result (fitted_parts self.now) 0 }
        ensures part { IsItemAt ring_seen result self.now.parts 0 }
        ensures dimension { IfSome result (λ r. ring_dimension r ≡ self.now.dimension) }
        ensures order { IfSome result (λ r. ring_order r ≡ order_of self.now.spelled) }
    {
        self.ring(0)
    }

    #[tactic(auto, using(std::proofs::lemmas::Option::slice_get_past))]
    #[inline]
    fn interior(&self, i: usize) -> Option<LinearRing<'a>>
        ensures value { IsItemAt ring_seen result (fitted_parts self.now) (i + 1) }
        ensures part { IsItemAt ring_seen result self.now.parts (i + 1) }
        ensures dimension { IfSome result (λ r. ring_dimension r ≡ self.now.dimension) }
        ensures order { IfSome result (λ r. ring_order r ≡ order_of self.now.spelled) }
    {
        if i < self.num_interiors() {
            self.ring(i + 1)
        } else {
            None
        }
    }

    #[tactic(auto, using(crate::proofs::Sizes::sized_laws))]
    #[inline]
    fn rings_size(&self) -> Option<usize>
        ensures size { result ≡ Some (fitted_rings_size self.now) }
        ensures writable { fault (fitted_polygon self.now) ≡ None }
    {
        Some(self.layout.length_after_header(self.buf))
    }
}

impl<'a> GeometryTrait for Polygon<'a> {
    ghost use Rattle.std.specs.Prelude.{◌≡◌, refl};
    ghost use Rattle.wkb_geom.specs.declared.geom.GeometryType.TheVariants.{Polygon as Handed};
    ghost use Rattle.wkb_view.specs.Prelude.{as_dimensions};
    ghost use Rattle.wkb_laws.specs.Fits.{fitted_polygon};
    ghost use Rattle.wkb_view.specs.Lawful.{line_strings_fit};

    type PointType = Point<'a>;

    type LineStringType = LineString<'a>;

    type PolygonType = Polygon<'a>;

    type MultiPointType = MultiPoint<'a>;

    type MultiLineStringType = MultiLineString<'a>;

    type MultiPolygonType = MultiPolygon<'a>;

    type RectType = Rect<'a>;

    type TriangleType = Triangle<'a>;

    type LineType = Line<'a>;

    ghost geometry = { fitted_polygon };

    ghost one_dimension = { λ g. refl };

    ghost lawful = { λ p. (line_strings_fit (as_dimensions p.dimension) p.parts).lawful };

    #[inline]
    fn as_written(&self, order: Endianness, form: Form) -> Option<&[u8]> {
        let has_flags = flags_without_srid(form)?;
        self.is_as_written(order, has_flags).then_some(self.buf)
    }

    #[inline]
    fn as_type(&self) -> AnyView<'_, 'a, Polygon<'a>>
        ensures view { result ≡ Handed self.entry }
    {
        GeometryType::Polygon(self)
    }

    // The trait's default, which the check would prove again here, in some seven seconds.
    #[inline]
    fn byte_size(&self) -> Option<usize> {
        None
    }
}
