//! A multi line string.

ghost use Rattle.wkb_view.specs.Prelude.{as_dimensions};

use crate::any::{
    AnyView, Line, LineString, MultiPoint, MultiPolygon, Point, Polygon, Rect, Triangle,
};
use crate::as_written::{AsWritten, flags_without_srid};
use crate::counts::Counts;
use crate::ends::{Parts, read_ends};
use crate::lent::are_bytes;
use crate::own_srid::OwnSrid;
use crate::part::part_at;
use std::alloc::{AllocError, Global};
use std::marker::Model;
use wkb_geom::code::WkbType;
use wkb_geom::header::MIN_MEMBER_SIZE;
use wkb_geom::words::COUNT_SIZE;
use wkb_geom::{
    Cause, Dimension, Dimensioned, Dimensions, Endianness, Form, GeometryTrait, GeometryType,
    Layout, MultiLineStringTrait, ReadError,
};

/// A multi line string: its members by the offsets at which they end.
#[derive(Debug, Drop)]
pub struct MultiLineString<'a> {
    buf: &'a [u8],
    layout: Layout,
    ends: Vec<usize>,
}

impl<'a> Model for MultiLineString<'a> {
    ghost use Rattle.std.specs.Prelude.{◌+◌, ◌≤◌, length, List};
    ghost use Rattle.wkb_geom.specs.Stored.{listed_code, rings_code};
    ghost use Rattle.wkb_view.specs.Prelude.{body_start, Listed, Coordinate, BytesSpell};
    ghost use Rattle.wkb_view.specs.Members.{AreMembersOfKind, line_strings_laid};
    ghost use Rattle.wkb_view.specs.Members.{multi_line_string_seen};

    ghost Value = { Listed (List (List Coordinate)) };

    ghost coded = { listed_code rings_code };

    ghost view = { λ a. line_strings_laid a.layout a.ends.items a.buf.now };

    ghost invariant = { λ a. (body_start a.layout.has_srid + 4 ≤ length a.buf.now)
        × AreMembersOfKind 2 a.layout a.ends.items a.buf.now
        × BytesSpell (multi_line_string_seen (line_strings_laid a.layout a.ends.items a.buf.now)) };
}

impl<'a> MultiLineString<'a> {
    ghost use Rattle.std.specs.Prelude.{◌≡◌, length, option_map, IfSome, IfOk};
    ghost use Rattle.wkb_geom.specs.Found.{IsItemAt};
    ghost use Rattle.wkb_geom.specs.declared.code.WkbType.TheVariants as kinds;
    ghost use Rattle.wkb_view.specs.Prelude.{multi_line_string_at, spelling_at};
    ghost use Rattle.wkb_view.specs.Views.{line_string_spelling, line_string_dimension};
    ghost use Rattle.wkb_view.specs.Views.{seen_coordinates};
    ghost use Rattle.wkb_view.specs.Headers.{HasHead};
    ghost use Rattle.wkb_view.specs.Members.{multi_line_string_seen};
    ghost use Rattle.wkb_view.specs.Outcome.{TakesAtLeast, CanCount, RefusesWithoutSlots};
    ghost use Rattle.wkb_view.specs.Reads.{ReadsMultiLineString};
    ghost use Rattle.wkb_view.specs.Lends.{Lends};

    /// The number of its bytes.
    #[inline]
    pub fn size(&self) -> u64
        ensures { result ≡ length self.now.encoding }
    {
        self.buf.len() as u64
    }

    /// Its dimension.
    #[inline]
    pub fn dimension(&self) -> Dimension
        ensures { result ≡ self.now.dimension }
    {
        self.layout.dimension
    }

    /// The bytes of this geometry, from its order byte to its end.
    #[inline]
    pub fn buf(&self) -> &'a [u8]
        ensures { Lends (multi_line_string_seen self.now) result.now }
    {
        are_bytes(self.buf);
        self.buf
    }

    /// The number of line strings.
    #[tactic(auto, using(crate::proofs::Members::members_counted))]
    pub(crate) fn num_members(&self) -> usize
        ensures { result ≡ length self.now.parts }
    {
        self.ends.len()
    }

    /// The line string at an index, read again from the bytes between two ends, in its own order.
    #[tactic(auto, using(crate::proofs::Pieces::in_order, crate::proofs::Members::member_there))]
    pub(crate) fn member(&self, i: usize) -> Option<LineString<'a>>
        ensures value { IsItemAt seen_coordinates result self.now.parts i }
        ensures dimension { IfSome result (λ l. line_string_dimension l ≡ self.now.dimension) }
        ensures spelled { option_map line_string_spelling result ≡ spelling_at self.now.spelled i }
    {
        let buf = part_at(
            self.buf,
            self.layout.header_length() + COUNT_SIZE,
            &self.ends,
            i,
        )?;
        let layout = Layout::of_known_member(WkbType::LineString(self.layout.dimension), buf);
        Some(LineString::of_encoding(layout, buf))
    }

    /// The multi line string after this header, and the bytes after it.
    #[tactic(auto, unfolding(wkb_geom::specs::Reading::multi_line_string_at))]
    #[inline(always)]
    pub fn read(
        alloc: Global,
        layout: Layout,
        bytes: &'a [u8],
        counts: &mut Counts,
    ) -> Result<(MultiLineString<'a>, &'a [u8]), ReadError>
        requires fits { CanCount counts.old (multi_line_string_at layout bytes.now).0 }
        requires head { HasHead (λ d. kinds.MultiLineString d) layout bytes.now }
        ensures answer { ReadsMultiLineString layout bytes.now result counts.old counts.new }
        ensures shorter { IfOk result (TakesAtLeast MIN_MEMBER_SIZE bytes.now) }
        ensures no_memory { RefusesWithoutSlots (multi_line_string_at layout bytes.now) result }
    {
        let (ends, rest) = read_ends::<LineStrings>(alloc, layout, bytes, counts)?;
        let multi_line_string = MultiLineString {
            buf: &bytes[..bytes.len() - rest.len()],
            layout,
            ends,
        };
        Ok((multi_line_string, rest))
    }
}

/// The line strings of a multi line string.
struct LineStrings;

impl Parts for LineStrings {
    ghost use Rattle.wkb_geom.specs.declared.header.TheConstants.{MIN_MEMBER_SIZE};
    ghost use Rattle.wkb_view.specs.Ends.{line_string_parts};

    ghost MIN_SIZE = { MIN_MEMBER_SIZE };

    ghost parts = { line_string_parts };

    const MIN_SIZE: usize = MIN_MEMBER_SIZE;

    fn pass<'a>(layout: Layout, bytes: &'a [u8]) -> Result<&'a [u8], Cause> {
        let member = Layout::of_member(WkbType::LineString(layout.dimension), bytes)?;
        // Rebuilt field by field: LLVM then keeps it in registers (docs/COST.md).
        let member = Layout {
            order: member.order,
            dimension: layout.dimension,
            has_srid: member.has_srid,
        };
        let (_, rest) = LineString::read(member, bytes)?;
        Ok(rest)
    }
}

/// A copy with a list of its own.
impl<'a> Clone for MultiLineString<'a> {
    ghost use Rattle.std.specs.Prelude.{◌≡◌};

    ghost is_clone = { λ multi copy. copy ≡ multi };

    fn clone(&self) -> Result<MultiLineString<'a>, AllocError> {
        Ok(MultiLineString {
            buf: self.buf,
            layout: self.layout,
            ends: self.ends.clone()?,
        })
    }
}

impl OwnSrid for MultiLineString<'_> {
    ghost spelled = { λ s. s.spelled };

    #[inline]
    fn srid(&self) -> Option<u32> {
        self.layout.srid(self.buf)
    }
}

impl AsWritten for MultiLineString<'_> {
    ghost use Rattle.wkb_view.specs.Members.{multi_line_string_seen};

    ghost seen = { multi_line_string_seen };

    fn is_as_written(&self, order: Endianness, has_flags: bool) -> bool {
        let wkb_type = WkbType::MultiLineString(self.layout.dimension);
        if !self.layout.begins_as(wkb_type, self.buf, order, has_flags) {
            return false;
        }
        for i in 0..self.num_members() {
            if !self.member(i).unwrap().is_as_written(order, has_flags) {
                return false;
            }
        }
        true
    }
}

impl Dimensioned for MultiLineString<'_> {
    ghost dimensions = { λ g. as_dimensions g.dimension };

    #[inline]
    fn dim(&self) -> Dimensions {
        self.layout.dimension.into()
    }
}

impl<'a> MultiLineStringTrait for MultiLineString<'a> {
    ghost use Rattle.std.specs.Prelude.{◌≡◌, option_map, IfSome};
    ghost use Rattle.wkb_geom.specs.Found.{IsItemAt};
    ghost use Rattle.wkb_view.specs.Prelude.{as_dimensions, spelling_at};
    ghost use Rattle.wkb_view.specs.Views.{line_string_spelling, line_string_dimension};
    ghost use Rattle.wkb_view.specs.Views.{seen_coordinates};
    ghost use Rattle.wkb_laws.specs.Fits.{fitted_parts};
    ghost use Rattle.wkb_view.specs.Lawful.{line_strings_fit};

    type InnerLineStringType = LineString<'a>;

    ghost line_strings = { fitted_parts };

    ghost lawful = { λ m. (line_strings_fit (as_dimensions m.dimension) m.parts).lawful };

    #[inline]
    fn num_line_strings(&self) -> usize {
        self.num_members()
    }

    #[inline]
    fn line_string(&self, i: usize) -> Option<LineString<'a>>
        ensures value { IsItemAt seen_coordinates result (fitted_parts self.now) i }
        ensures part { IsItemAt seen_coordinates result self.now.parts i }
        ensures dimension { IfSome result (λ l. line_string_dimension l ≡ self.now.dimension) }
        ensures spelled { option_map line_string_spelling result ≡ spelling_at self.now.spelled i }
    {
        self.member(i)
    }
}

impl<'a> GeometryTrait for MultiLineString<'a> {
    ghost use Rattle.std.specs.Prelude.{◌≡◌, refl};
    ghost use Rattle.wkb_geom.specs.declared.geom.GeometryType.TheVariants.{MultiLineString as Handed};
    ghost use Rattle.wkb_geom.specs.Geometries.{multi_line_string};
    ghost use Rattle.wkb_view.specs.Prelude.{as_dimensions};
    ghost use Rattle.wkb_laws.specs.Fits.{fitted_parts};
    ghost use Rattle.wkb_view.specs.Lawful.{line_strings_fit};

    type PointType = Point<'a>;

    type LineStringType = LineString<'a>;

    type PolygonType = Polygon<'a>;

    type MultiPointType = MultiPoint<'a>;

    type MultiLineStringType = MultiLineString<'a>;

    type MultiPolygonType = MultiPolygon<'a>;

    type RectType = Rect<'a>;

    type TriangleType = Triangle<'a>;

    type LineType = Line<'a>;

    ghost geometry = { λ m. multi_line_string (as_dimensions m.dimension) (fitted_parts m) };

    ghost one_dimension = { λ g. refl };

    ghost lawful = { λ m. (line_strings_fit (as_dimensions m.dimension) m.parts).lawful };

    #[inline]
    fn as_type(&self) -> AnyView<'_, 'a, MultiLineString<'a>>
        ensures view { result ≡ Handed self.entry }
    {
        GeometryType::MultiLineString(self)
    }

    #[inline]
    fn as_written(&self, order: Endianness, form: Form) -> Option<&[u8]> {
        let has_flags = flags_without_srid(form)?;
        self.is_as_written(order, has_flags).then_some(self.buf)
    }

    // The trait's default, which the check would prove again here, in some seven seconds.
    #[inline]
    fn byte_size(&self) -> Option<usize> {
        None
    }
}
