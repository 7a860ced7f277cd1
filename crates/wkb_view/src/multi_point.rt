//! A multi point.

ghost use Rattle.std.specs.Prelude.{◌≡◌, ◌+◌, length, ◌≤◌, IfOk};
ghost use Rattle.wkb_view.specs.Prelude.{AreBytes, body_start, consumed, multi_point_end, BytesSpell};
ghost use Rattle.wkb_view.specs.Members.{members_behind, ArePoints, PassedMember, multi_point_item};
ghost use Rattle.wkb_view.specs.Outcome.{CanCount};
ghost use Rattle.wkb_view.specs.Passes.{PassesPoint, PassesPoints, IsAfterPoints};

use crate::any::{
    AnyView, Line, LineString, MultiLineString, MultiPolygon, Point, Polygon, Rect, Triangle,
};
use crate::as_written::{AsWritten, flags_without_srid};
use crate::counts::Counts;
use crate::lent::are_bytes;
use crate::own_srid::OwnSrid;
use crate::part::subslice;
use wkb_geom::code::{POINT, WkbType};
use wkb_geom::header::{MEMBER_HEADER_SIZE, MIN_MEMBER_SIZE};
use wkb_geom::words::COUNT_SIZE;
use wkb_geom::{
    Cause, Dimension, Dimensioned, Dimensions, Endianness, Form, GeometryTrait, GeometryType,
    Layout, MultiPointTrait,
};

/// A multi point: its members have one length, and are read again from their bytes.
#[derive(Clone, Copy, Debug)]
pub struct MultiPoint<'a> {
    buf: &'a [u8],
    layout: Layout,
    count: u32,
    ghost whole: { length buf.now ≡ multi_point_end layout.dimension layout.has_srid count },
    ghost in_range: { AreBytes buf.now },
    ghost spells: { BytesSpell (multi_point_item layout count buf.now) },
    ghost each: { ∥ ArePoints layout count buf.now ∥₁ },
}

impl<'a> MultiPoint<'a> {
    ghost use Rattle.std.specs.Prelude.{◌≡◌, length, ◌≤◌, IfOk};
    ghost use Rattle.wkb_geom.specs.Values as value;
    ghost use Rattle.wkb_geom.specs.declared.code.WkbType.TheVariants as kinds;
    ghost use Rattle.wkb_view.specs.Prelude.{multi_point_at};
    ghost use Rattle.wkb_view.specs.Views.{multi_point_seen, seen_points, multi_point_offset};
    ghost use Rattle.wkb_view.specs.Headers.{HasHead};
    ghost use Rattle.wkb_view.specs.Outcome.{CanCount, TakesAtLeast};
    ghost use Rattle.wkb_view.specs.Reads.{ReadsMultiPoint};
    ghost use Rattle.wkb_view.specs.Lends.{Lends};

    /// The number of its bytes.
    #[inline]
    pub fn size(&self) -> u64
        ensures { result ≡ length (multi_point_seen self.now).encoding }
    {
        self.buf.len() as u64
    }

    /// The offset at which a point begins in its bytes.
    #[tactic(auto, using(crate::proofs::Members::points_counted, crate::proofs::Items::offset_laws))]
    #[inline]
    pub fn point_offset(&self, i: u64) -> u64
        requires { i ≤ length (seen_points self.now) }
        ensures { result ≡ multi_point_offset self.now i }
    {
        let start = self.layout.header_length() + COUNT_SIZE;
        let member = MEMBER_HEADER_SIZE + self.layout.dimension.coordinate_size();
        start as u64 + member as u64 * i
    }

    /// Its dimension.
    #[inline]
    pub fn dimension(&self) -> Dimension
        ensures { result ≡ value.dimension (multi_point_seen self.now).value }
    {
        self.layout.dimension
    }

    /// The bytes of this geometry, from its order byte to its end.
    #[tactic(auto, using(crate::proofs::Lends::multi_point_lends))]
    #[inline]
    pub fn buf(&self) -> &'a [u8]
        ensures { Lends (multi_point_seen self.now) result.now }
    {
        are_bytes(self.buf);
        self.buf
    }

    /// The multi point after this header, and the bytes after it.
    #[inline(always)]
    pub fn read(
        layout: Layout,
        bytes: &'a [u8],
        counts: &mut Counts,
    ) -> Result<(MultiPoint<'a>, &'a [u8]), Cause>
        requires fits { CanCount counts.old (multi_point_at layout bytes.now).0 }
        requires head { HasHead (λ d. kinds.MultiPoint d) layout bytes.now }
        ensures answer { ReadsMultiPoint layout bytes.now result counts.old counts.new }
        ensures shorter { IfOk result (TakesAtLeast MIN_MEMBER_SIZE bytes.now) }
    {
        let count = layout.count_of_points(bytes)?;
        let rest = pass_points(layout, bytes, count, counts)?;
        let buf = &bytes[..bytes.len() - rest.len()];
        Ok((MultiPoint { buf, layout, count }, rest))
    }
}

/// Passes the point of this dimension, without an SRID, at the start of the bytes.
#[inline]
fn pass_point<'a>(dimension: Dimension, bytes: &'a [u8]) -> Result<&'a [u8], Cause>
    ensures answer { PassesPoint dimension bytes.now result }
    ensures passed { IfOk result (λ rest. PassedMember POINT dimension bytes.now rest.now) }
{
    let member = Layout::of_member(WkbType::Point(dimension), bytes)?;
    // Built from what is known, so that it doesn't go through memory.
    let layout = Layout {
        order: member.order,
        dimension,
        has_srid: false,
    };
    let (_, rest) = Point::read(layout, bytes)?;
    Ok(rest)
}

/// Passes `count` points.
fn pass_points<'a>(
    layout: Layout,
    bytes: &'a [u8],
    count: u32,
    counts: &mut Counts,
) -> Result<&'a [u8], Cause>
    requires whole { body_start layout.has_srid + COUNT_SIZE ≤ length bytes.now }
    requires fits { CanCount counts.old (members_behind POINT layout count bytes.now).0 }
    ensures points { PassesPoints layout count bytes.now result counts.old counts.new }
    ensures each { IfOk result (λ rest. ArePoints layout count (consumed bytes.now rest.now)) }
    ensures end { IfOk result (λ rest. IsAfterPoints layout count bytes.now rest.now) }
{
    let mut rest = layout.after_count(bytes);
    for _ in 0..count {
        counts.turns += 1;
        rest = pass_point(layout.dimension, rest)?;
    }
    Ok(rest)
}

impl OwnSrid for MultiPoint<'_> {
    ghost use Rattle.wkb_view.specs.Views.{multi_point_spelling};

    ghost spelled = { multi_point_spelling };

    #[inline]
    fn srid(&self) -> Option<u32> {
        self.layout.srid(self.buf)
    }
}

impl AsWritten for MultiPoint<'_> {
    ghost use Rattle.wkb_view.specs.Views.{multi_point_seen};

    ghost seen = { multi_point_seen };

    fn is_as_written(&self, order: Endianness, has_flags: bool) -> bool {
        let wkb_type = WkbType::MultiPoint(self.layout.dimension);
        if !self.layout.begins_as(wkb_type, self.buf, order, has_flags) {
            return false;
        }
        for i in 0..self.num_points() {
            if !self.point(i).unwrap().is_as_written(order, has_flags) {
                return false;
            }
        }
        true
    }
}

impl Dimensioned for MultiPoint<'_> {
    ghost use Rattle.wkb_view.specs.Prelude.{as_dimensions};
    ghost use Rattle.wkb_view.specs.Views.{multi_point_dimension};

    ghost dimensions = { λ g. as_dimensions (multi_point_dimension g) };

    #[inline]
    fn dim(&self) -> Dimensions {
        self.layout.dimension.into()
    }
}

impl<'a> MultiPointTrait for MultiPoint<'a> {
    ghost use Rattle.std.specs.Prelude.{◌≡◌, option_map, IfSome};
    ghost use Rattle.wkb_geom.specs.Found.{IsItemAt};
    ghost use Rattle.wkb_view.specs.Prelude.{spelling_at};
    ghost use Rattle.wkb_view.specs.Views.{point_seen, seen_coordinate, point_dimension};
    ghost use Rattle.wkb_view.specs.Views.{multi_point_spelling, seen_points, multi_point_dimension};
    ghost use Rattle.wkb_view.specs.Views.{point_spelling, multi_point_member_bytes};
    ghost use Rattle.wkb_view.specs.Lawful.{multi_point_item_lawful};

    type InnerPointType = Point<'a>;

    ghost points = { seen_points };

    ghost lawful = { λ m. multi_point_item_lawful m.layout m.count m.buf.now m.in_range };

    #[tactic(auto, using(crate::proofs::Members::points_counted))]
    #[inline]
    fn num_points(&self) -> usize {
        self.count as usize
    }

    /// The point at an index, read again from its bytes, in its own order.
    #[tactic(auto, using(crate::proofs::Members::points_counted, crate::proofs::Items::next_within))]
    #[inline]
    fn point(&self, i: usize) -> Option<Point<'a>>
        ensures value { IsItemAt seen_coordinate result (seen_points self.now) i }
        ensures dimension { IfSome result
            (λ p. point_dimension p ≡ multi_point_dimension self.now) }
        ensures spelled { option_map point_spelling result ≡
            spelling_at (multi_point_spelling self.now) i }
        ensures bytes { IfSome result
            (λ p. (point_seen p).encoding ≡ multi_point_member_bytes self.now i) }
    {
        if i >= self.count as usize {
            return None;
        }
        let start = self.point_offset(i as u64) as usize;
        let member = MEMBER_HEADER_SIZE + self.layout.dimension.coordinate_size();
        let buf = subslice(self.buf, start, member);
        let layout = Layout::of_known_member(WkbType::Point(self.layout.dimension), buf);
        Some(Point::of_encoding(layout, buf))
    }
}

impl<'a> GeometryTrait for MultiPoint<'a> {
    ghost use Rattle.std.specs.Prelude.{◌≡◌, refl};
    ghost use Rattle.wkb_geom.specs.declared.geom.GeometryType.TheVariants.{MultiPoint as Handed};
    ghost use Rattle.wkb_geom.specs.Geometries.{multi_point};
    ghost use Rattle.wkb_view.specs.Prelude.{as_dimensions};
    ghost use Rattle.wkb_view.specs.Lawful.{multi_point_item_lawful};
    ghost use Rattle.wkb_view.specs.Views.{seen_points, multi_point_dimension};

    type PointType = Point<'a>;

    type LineStringType = LineString<'a>;

    type PolygonType = Polygon<'a>;

    type MultiPointType = MultiPoint<'a>;

    type MultiLineStringType = MultiLineString<'a>;

    type MultiPolygonType = MultiPolygon<'a>;

    type RectType = Rect<'a>;

    type TriangleType = Triangle<'a>;

    type LineType = Line<'a>;

    ghost geometry = { λ m. multi_point (as_dimensions (multi_point_dimension m))
        (seen_points m) };

    ghost one_dimension = { λ g. refl };

    ghost lawful = { λ m. multi_point_item_lawful m.layout m.count m.buf.now m.in_range };

    #[inline]
    fn as_type(&self) -> AnyView<'_, 'a, MultiPoint<'a>>
        ensures view { result ≡ Handed self.entry }
    {
        GeometryType::MultiPoint(self)
    }

    #[inline]
    fn as_written(&self, order: Endianness, form: Form) -> Option<&[u8]> {
        let has_flags = flags_without_srid(form)?;
        self.is_as_written(order, has_flags).then_some(self.buf)
    }

    // The trait's default, which the check would prove again here, in some seven seconds.
    #[inline]
    fn byte_size(&self) -> Option<usize> {
        None
    }
}
