//! A point.

ghost use Rattle.std.specs.Prelude.{◌≡◌, length};
ghost use Rattle.wkb_view.specs.Prelude.{point_end, AreBytes, point_item, BytesSpell};

use crate::any::{
    AnyView, Line, LineString, MultiLineString, MultiPoint, MultiPolygon, Polygon, Rect, Triangle,
};
use crate::as_written::{AsWritten, flags_without_srid};
use crate::coord::Coord;
use crate::lent::are_bytes;
use crate::own_srid::OwnSrid;
use crate::part::subslice;
use wkb_geom::code::{POINT, WkbType};
use wkb_geom::header::MIN_MEMBER_SIZE;
use wkb_geom::{
    Cause, Dimension, Dimensioned, Dimensions, Endianness, Form, GeometryTrait, GeometryType,
    Layout, PointTrait,
};

/// A point, which may be empty.
#[derive(Clone, Copy, Debug)]
pub struct Point<'a> {
    buf: &'a [u8],
    layout: Layout,
    ghost whole: { length buf.now ≡ point_end layout.dimension layout.has_srid },
    ghost in_range: { AreBytes buf.now },
    ghost spells: { BytesSpell (point_item layout buf.now) },
}

impl<'a> Point<'a> {
    ghost use Rattle.std.specs.Prelude.{◌≡◌, length, is_none, IfOk};
    ghost use Rattle.wkb_geom.specs.Values as value;
    ghost use Rattle.wkb_geom.specs.declared.code.WkbType.TheVariants as kinds;
    ghost use Rattle.wkb_view.specs.Prelude.{point_at, point_item};
    ghost use Rattle.wkb_view.specs.Coords.{words_seen, coord_order, coord_dimension};
    ghost use Rattle.wkb_view.specs.Coords.{coord_encoding};
    ghost use Rattle.wkb_view.specs.Views.{coordinate_in, point_seen, seen_coordinate, point_layout};
    ghost use Rattle.wkb_view.specs.Views.{point_order, point_coord_bytes, point_words_bytes};
    ghost use Rattle.wkb_view.specs.Views.{point_dimension};
    ghost use Rattle.wkb_view.specs.Headers.{HasHead};
    ghost use Rattle.wkb_view.specs.Members.{IsEncoding, PassedEncoding};
    ghost use Rattle.wkb_view.specs.Outcome.{IsReadAs, IsTakenAs, TakesAtLeast};
    ghost use Rattle.wkb_view.specs.Lends.{Lends};

    /// The number of its bytes.
    #[inline]
    pub fn size(&self) -> u64
        ensures { result ≡ length (point_seen self.now).encoding }
    {
        self.buf.len() as u64
    }

    /// Its dimension.
    #[inline]
    pub fn dimension(&self) -> Dimension
        ensures { result ≡ value.dimension (point_seen self.now).value }
    {
        self.layout.dimension
    }

    /// Whether all its words are NaNs.
    #[tactic(auto, using(crate::proofs::Items::empty_is))]
    #[inline]
    pub fn is_empty(&self) -> bool
        ensures { result ≡ is_none (seen_coordinate self.now) }
    {
        self.words().is_all_nan()
    }

    /// The order of its numbers.
    #[inline]
    pub fn byte_order(&self) -> Endianness
        ensures { result ≡ point_order self.now }
    {
        self.layout.order
    }

    /// The bytes of its words, also where all are NaNs.
    #[inline]
    pub fn coord_slice(&self) -> &'a [u8]
        ensures { result.now ≡ point_words_bytes self.now }
    {
        &self.buf[self.layout.header_length()..]
    }

    /// The bytes of this geometry, from its order byte to its end.
    #[tactic(auto, using(crate::proofs::Lends::point_lends))]
    #[inline]
    pub fn buf(&self) -> &'a [u8]
        ensures { Lends (point_seen self.now) result.now }
    {
        are_bytes(self.buf);
        self.buf
    }

    /// Its words, also where all are NaNs.
    #[tactic(auto, using(crate::proofs::Items::words_take, crate::proofs::Items::slice_laws))]
    #[inline]
    pub(crate) fn words(&self) -> Coord<'a>
        ensures words { words_seen result ≡ coordinate_in self.now }
        ensures order { coord_order result ≡ (point_layout self.now).order }
        ensures dimension { coord_dimension result ≡ point_dimension self.now }
        ensures bytes { coord_encoding result ≡ point_coord_bytes self.now }
    {
        Coord {
            bytes: subslice(
                self.buf,
                self.layout.header_length(),
                self.layout.dimension.coordinate_size(),
            ),
            order: self.layout.order,
            dimension: self.layout.dimension,
        }
    }

    /// The point after this header, and the bytes after it.
    #[tactic(auto, using(crate::proofs::Spells::point_encoding, crate::proofs::Items::slice_laws))]
    #[inline]
    pub fn read(layout: Layout, bytes: &'a [u8]) -> Result<(Point<'a>, &'a [u8]), Cause>
        requires head { HasHead (λ d. kinds.Point d) layout bytes.now }
        ensures answer { IsReadAs point_seen bytes.now result (point_at layout bytes.now) }
        ensures item { IfOk result (IsTakenAs point_seen (point_item layout) bytes.now) }
        ensures passed { IfOk result (λ x. PassedEncoding POINT layout bytes.now x.1.now) }
        ensures shorter { IfOk result (TakesAtLeast MIN_MEMBER_SIZE bytes.now) }
    {
        let end = layout.end_of_point(bytes)?;
        let (buf, rest) = bytes.split_at(end);
        let point = Point { buf, layout };
        Ok((point, rest))
    }

    /// The point of these bytes, a member of a multi point.
    #[inline]
    pub(crate) fn of_encoding(layout: Layout, buf: &'a [u8]) -> Point<'a>
        requires { IsEncoding POINT layout buf.now }
        ensures item { point_seen result ≡ point_item layout buf.now }
        ensures layout { point_layout result ≡ layout }
    {
        Point { buf, layout }
    }
}

impl OwnSrid for Point<'_> {
    ghost use Rattle.wkb_view.specs.Views.{point_spelling};

    ghost spelled = { point_spelling };

    #[tactic(auto, using(crate::proofs::Items::srid_is))]
    #[inline]
    fn srid(&self) -> Option<u32> {
        self.layout.srid(self.buf)
    }
}

impl AsWritten for Point<'_> {
    ghost use Rattle.wkb_view.specs.Views.{point_seen};

    ghost seen = { point_seen };

    #[inline(always)]
    fn is_as_written(&self, order: Endianness, has_flags: bool) -> bool {
        let wkb_type = WkbType::Point(self.layout.dimension);
        self.layout.begins_as(wkb_type, self.buf, order, has_flags) && !self.words().is_all_nan()
    }
}

impl Dimensioned for Point<'_> {
    ghost use Rattle.wkb_view.specs.Prelude.{as_dimensions};
    ghost use Rattle.wkb_view.specs.Views.{point_dimension};

    ghost dimensions = { λ g. as_dimensions (point_dimension g) };

    #[inline]
    fn dim(&self) -> Dimensions {
        self.layout.dimension.into()
    }
}

impl<'a> PointTrait for Point<'a> {
    ghost use Rattle.std.specs.Prelude.{◌≡◌, option_map, IfSome};
    ghost use Rattle.wkb_view.specs.Lawful.{point_item_lawful};
    ghost use Rattle.wkb_view.specs.Coords.{words_seen, coord_order, coord_dimension};
    ghost use Rattle.wkb_view.specs.Coords.{coord_encoding};
    ghost use Rattle.wkb_view.specs.Views.{seen_coordinate, point_order, point_dimension};
    ghost use Rattle.wkb_view.specs.Views.{point_coord_bytes};

    type CoordType = Coord<'a>;

    ghost coordinate = { seen_coordinate };

    ghost lawful = { λ p. point_item_lawful p.layout p.buf.now p.in_range };

    #[inline(always)]
    fn coord(&self) -> Option<Coord<'a>>
        ensures value { option_map words_seen result ≡ seen_coordinate self.now }
        ensures dimension { IfSome result (λ c. coord_dimension c ≡ point_dimension self.now) }
        ensures order { IfSome result (λ c. coord_order c ≡ point_order self.now) }
        ensures bytes { IfSome result (λ c. coord_encoding c ≡ point_coord_bytes self.now) }
    {
        let words = self.words();
        if words.is_all_nan() {
            None
        } else {
            Some(words)
        }
    }
}

impl<'a> GeometryTrait for Point<'a> {
    ghost use Rattle.std.specs.Prelude.{◌≡◌, refl};
    ghost use Rattle.wkb_geom.specs.declared.geom.GeometryType.TheVariants.{Point as Handed};
    ghost use Rattle.wkb_geom.specs.Geometries.{point};
    ghost use Rattle.wkb_view.specs.Prelude.{as_dimensions};
    ghost use Rattle.wkb_view.specs.Lawful.{point_item_lawful};
    ghost use Rattle.wkb_view.specs.Views.{seen_coordinate, point_dimension};

    type PointType = Point<'a>;

    type LineStringType = LineString<'a>;

    type PolygonType = Polygon<'a>;

    type MultiPointType = MultiPoint<'a>;

    type MultiLineStringType = MultiLineString<'a>;

    type MultiPolygonType = MultiPolygon<'a>;

    type RectType = Rect<'a>;

    type TriangleType = Triangle<'a>;

    type LineType = Line<'a>;

    ghost geometry = { λ p. point (as_dimensions (point_dimension p)) (seen_coordinate p) };

    ghost one_dimension = { λ g. refl };

    ghost lawful = { λ p. point_item_lawful p.layout p.buf.now p.in_range };

    #[inline]
    fn as_written(&self, order: Endianness, form: Form) -> Option<&[u8]> {
        let has_flags = flags_without_srid(form)?;
        self.is_as_written(order, has_flags).then_some(self.buf)
    }

    #[inline]
    fn as_type(&self) -> AnyView<'_, 'a, Point<'a>>
        ensures view { result ≡ Handed self.entry }
    {
        GeometryType::Point(self)
    }

    // The trait's default, which the check would prove again here, in some seven seconds.
    #[inline]
    fn byte_size(&self) -> Option<usize> {
        None
    }
}
