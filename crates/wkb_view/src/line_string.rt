//! A line string.

ghost use Rattle.std.specs.Prelude.{◌≡◌, length};
ghost use Rattle.wkb_view.specs.Prelude.{line_string_end, AreBytes, count_in, line_string_item};
ghost use Rattle.wkb_view.specs.Prelude.{BytesSpell};

use crate::any::{
    AnyView, Line, MultiLineString, MultiPoint, MultiPolygon, Point, Polygon, Rect, Triangle,
};
use crate::as_written::{AsWritten, flags_without_srid};
use crate::coord::Coord;
use crate::lent::are_bytes;
use crate::linear_ring::LinearRing;
use crate::own_srid::OwnSrid;
use wkb_geom::code::{LINE_STRING, WkbType};
use wkb_geom::header::MIN_MEMBER_SIZE;
use wkb_geom::words::{COUNT_SIZE, u32_at};
use wkb_geom::{
    Cause, Dimension, Dimensioned, Dimensions, Endianness, Form, GeometryTrait, GeometryType,
    Layout, LineStringTrait,
};

/// A line string.
#[derive(Clone, Copy, Debug)]
pub struct LineString<'a> {
    buf: &'a [u8],
    layout: Layout,
    count: u32,
    ghost counted: { count ≡ count_in layout buf.now },
    ghost whole: { length buf.now ≡ line_string_end layout.dimension layout.has_srid count },
    ghost in_range: { AreBytes buf.now },
    ghost spells: { BytesSpell (line_string_item layout buf.now) },
}

impl<'a> LineString<'a> {
    ghost use Rattle.std.specs.Prelude.{◌≡◌, length, ◌≤◌, IfOk};
    ghost use Rattle.wkb_geom.specs.Values as value;
    ghost use Rattle.wkb_geom.specs.declared.code.WkbType.TheVariants as kinds;
    ghost use Rattle.wkb_view.specs.Prelude.{line_string_at, line_string_item};
    ghost use Rattle.wkb_view.specs.Coords.{ring_encoding, ring_order, ring_dimension};
    ghost use Rattle.wkb_view.specs.Views.{line_string_seen, line_string_layout};
    ghost use Rattle.wkb_view.specs.Views.{line_string_offset, seen_coordinates};
    ghost use Rattle.wkb_view.specs.Views.{line_string_order, line_string_ring_bytes};
    ghost use Rattle.wkb_view.specs.Views.{line_string_coords_bytes, line_string_dimension};
    ghost use Rattle.wkb_view.specs.Headers.{HasHead};
    ghost use Rattle.wkb_view.specs.Outcome.{IsReadAs, IsTakenAs, TakesAtLeast};
    ghost use Rattle.wkb_view.specs.Members.{IsEncoding, PassedEncoding};
    ghost use Rattle.wkb_view.specs.Lends.{Lends};

    /// The number of its bytes.
    #[inline]
    pub fn size(&self) -> u64
        ensures { result ≡ length (line_string_seen self.now).encoding }
    {
        self.buf.len() as u64
    }

    /// The offset at which a coordinate begins in its bytes.
    #[inline]
    pub fn coord_offset(&self, i: u64) -> u64
        requires { i ≤ length (seen_coordinates self.now) }
        ensures { result ≡ line_string_offset self.now i }
    {
        self.layout.header_length() as u64 + self.as_ring().coord_offset(i)
    }

    /// Its dimension.
    #[inline]
    pub fn dimension(&self) -> Dimension
        ensures { result ≡ value.dimension (line_string_seen self.now).value }
    {
        self.layout.dimension
    }

    /// The bytes of its coordinates, after the count.
    #[inline]
    pub fn coords_slice(&self) -> &'a [u8]
        ensures { result.now ≡ line_string_coords_bytes self.now }
    {
        &self.buf[self.layout.header_length() + COUNT_SIZE..]
    }

    /// The order of its numbers.
    #[inline]
    pub fn byte_order(&self) -> Endianness
        ensures { result ≡ line_string_order self.now }
    {
        self.layout.order
    }

    /// The bytes of this geometry, from its order byte to its end.
    #[tactic(auto, using(crate::proofs::Lends::line_string_lends))]
    #[inline]
    pub fn buf(&self) -> &'a [u8]
        ensures { Lends (line_string_seen self.now) result.now }
    {
        are_bytes(self.buf);
        self.buf
    }

    /// Its count and its coordinates, as a ring has them.
    #[tactic(auto, using(crate::proofs::Items::slice_laws))]
    #[inline]
    fn as_ring(&self) -> LinearRing<'a>
        ensures encoding { ring_encoding result ≡ line_string_ring_bytes self.now }
        ensures order { ring_order result ≡ (line_string_layout self.now).order }
        ensures dimension { ring_dimension result ≡ line_string_dimension self.now }
    {
        LinearRing {
            bytes: &self.buf[self.layout.header_length()..],
            order: self.layout.order,
            dimension: self.layout.dimension,
            count: self.count,
        }
    }

    /// The line string after this header, and the bytes after it.
    #[tactic(auto, using(crate::proofs::Spells::line_string_laws, crate::proofs::Items::slice_laws))]
    #[inline]
    pub fn read(layout: Layout, bytes: &'a [u8]) -> Result<(LineString<'a>, &'a [u8]), Cause>
        requires head { HasHead (λ d. kinds.LineString d) layout bytes.now }
        ensures answer { IsReadAs line_string_seen bytes.now result
            (line_string_at layout bytes.now).1 }
        ensures item { IfOk result
            (IsTakenAs line_string_seen (line_string_item layout) bytes.now) }
        ensures passed { IfOk result (λ x. PassedEncoding LINE_STRING layout bytes.now x.1.now) }
        ensures shorter { IfOk result (TakesAtLeast MIN_MEMBER_SIZE bytes.now) }
    {
        let (count, end) = layout.end_of_line_string(bytes)?;
        let (buf, rest) = bytes.split_at(end);
        let line_string = LineString { buf, layout, count };
        Ok((line_string, rest))
    }

    /// The line string of these bytes, a member of a multi line string.
    #[tactic(auto, using(crate::proofs::Items::slice_laws))]
    #[inline]
    pub(crate) fn of_encoding(layout: Layout, buf: &'a [u8]) -> LineString<'a>
        requires { IsEncoding LINE_STRING layout buf.now }
        ensures item { line_string_seen result ≡ line_string_item layout buf.now }
        ensures layout { line_string_layout result ≡ layout }
    {
        LineString {
            buf,
            layout,
            count: u32_at(buf, layout.header_length(), layout.order),
        }
    }
}

impl OwnSrid for LineString<'_> {
    ghost use Rattle.wkb_view.specs.Views.{line_string_spelling};

    ghost spelled = { line_string_spelling };

    #[inline]
    fn srid(&self) -> Option<u32> {
        self.layout.srid(self.buf)
    }
}

impl AsWritten for LineString<'_> {
    ghost use Rattle.wkb_view.specs.Views.{line_string_seen};

    ghost seen = { line_string_seen };

    #[inline]
    fn is_as_written(&self, order: Endianness, has_flags: bool) -> bool {
        let wkb_type = WkbType::LineString(self.layout.dimension);
        self.layout.begins_as(wkb_type, self.buf, order, has_flags)
    }
}

impl Dimensioned for LineString<'_> {
    ghost use Rattle.wkb_view.specs.Prelude.{as_dimensions};
    ghost use Rattle.wkb_view.specs.Views.{line_string_dimension};

    ghost dimensions = { λ g. as_dimensions (line_string_dimension g) };

    #[inline]
    fn dim(&self) -> Dimensions {
        self.layout.dimension.into()
    }
}

#[tactic(auto, using(crate::proofs::Items::coordinate_behind))]
impl<'a> LineStringTrait for LineString<'a> {
    ghost use Rattle.std.specs.Prelude.{◌≡◌, length, IfSome, ◌<◌, Some, slice_get};
    ghost use Rattle.std.specs.Prelude.{IsSome, ◌↔◌};
    ghost use Rattle.wkb_geom.specs.Found.{IsItemAt};
    ghost use Rattle.wkb_view.specs.Coords.{words_seen, coord_order, coord_dimension};
    ghost use Rattle.wkb_view.specs.Coords.{LendsCoordinates};
    ghost use Rattle.wkb_view.specs.Coords.{coord_encoding};
    ghost use Rattle.wkb_view.specs.Lawful.{line_string_item_lawful};
    ghost use Rattle.wkb_view.specs.Views.{seen_coordinates, line_string_dimension};
    ghost use Rattle.wkb_view.specs.Views.{line_string_order, line_string_coord_bytes};

    type CoordType = Coord<'a>;

    ghost coordinates = { seen_coordinates };

    ghost lawful = { λ l. line_string_item_lawful l.layout l.buf.now l.in_range };

    #[tactic(auto, using(crate::proofs::Items::ring_counted))]
    #[inline]
    fn num_coords(&self) -> usize {
        self.count as usize
    }

    #[tactic(auto, using(crate::proofs::CoordsAsWritten::ring_stands, crate::proofs::Items::slice_laws))]
    #[inline]
    fn coords_as_written(&self, order: Endianness) -> Option<&[u8]>
        ensures bytes { LendsCoordinates order (seen_coordinates self.now) result }
        ensures own_order { IsSome result ↔ (line_string_order self.now ≡ order) }
    {
        if self.layout.order == order {
            Some(self.coords_slice())
        } else {
            None
        }
    }

    #[inline]
    fn coord(&self, i: usize) -> Option<Coord<'a>>
        ensures value { IsItemAt words_seen result (seen_coordinates self.now) i }
        ensures dimension { IfSome result
            (λ c. coord_dimension c ≡ line_string_dimension self.now) }
        ensures order { IfSome result (λ c. coord_order c ≡ line_string_order self.now) }
        ensures bytes { IfSome result (λ c. coord_encoding c ≡ line_string_coord_bytes self.now i) }
    {
        self.as_ring().coord(i)
    }

    #[inline]
    fn coord_at(&self, i: usize) -> Coord<'a>
        requires { i < length (seen_coordinates self.now) }
        ensures value { slice_get (seen_coordinates self.now) i ≡ Some (words_seen result) }
        ensures dimension { coord_dimension result ≡ line_string_dimension self.now }
        ensures order { coord_order result ≡ line_string_order self.now }
        ensures bytes { coord_encoding result ≡ line_string_coord_bytes self.now i }
    {
        self.as_ring().coord_at(i)
    }
}

impl<'a> GeometryTrait for LineString<'a> {
    ghost use Rattle.std.specs.Prelude.{◌≡◌, refl};
    ghost use Rattle.wkb_geom.specs.declared.geom.GeometryType.TheVariants.{LineString as Handed};
    ghost use Rattle.wkb_geom.specs.Geometries.{line_string};
    ghost use Rattle.wkb_view.specs.Prelude.{as_dimensions};
    ghost use Rattle.wkb_view.specs.Lawful.{line_string_item_lawful};
    ghost use Rattle.wkb_view.specs.Views.{seen_coordinates, line_string_dimension};

    type PointType = Point<'a>;

    type LineStringType = LineString<'a>;

    type PolygonType = Polygon<'a>;

    type MultiPointType = MultiPoint<'a>;

    type MultiLineStringType = MultiLineString<'a>;

    type MultiPolygonType = MultiPolygon<'a>;

    type RectType = Rect<'a>;

    type TriangleType = Triangle<'a>;

    type LineType = Line<'a>;

    ghost geometry = { λ l. line_string (as_dimensions (line_string_dimension l))
        (seen_coordinates l) };

    ghost one_dimension = { λ g. refl };

    ghost lawful = { λ l. line_string_item_lawful l.layout l.buf.now l.in_range };

    #[inline]
    fn as_written(&self, order: Endianness, form: Form) -> Option<&[u8]> {
        let has_flags = flags_without_srid(form)?;
        self.is_as_written(order, has_flags).then_some(self.buf)
    }

    #[inline]
    fn as_type(&self) -> AnyView<'_, 'a, LineString<'a>>
        ensures view { result ≡ Handed self.entry }
    {
        GeometryType::LineString(self)
    }

    // The trait's default, which the check would prove again here, in some seven seconds.
    #[inline]
    fn byte_size(&self) -> Option<usize> {
        None
    }
}
