//! A multi polygon.

ghost use Rattle.std.specs.Prelude.{◌≡◌, ◌≢◌, ◌+◌, length, ◌≤◌, IfOk, IfSome, Ok, [], true, false};
ghost use Rattle.wkb_geom.specs.Codes.{ewkb_code};
ghost use Rattle.wkb_geom.specs.Reading.{laid, member_layout};
ghost use Rattle.wkb_view.specs.Prelude.{as_dimensions, body_start, member_at};
ghost use Rattle.wkb_view.specs.Outcome.{TakesAtLeast, CanCount, RefusesWithoutSlots};
ghost use Rattle.wkb_view.specs.Members.{members_behind, AreOfDimension};
ghost use Rattle.wkb_view.specs.Pieces.{IsAfterCount};
ghost use Rattle.wkb_view.specs.Reads.{ReadsMember, ReadsMembers};
ghost use Rattle.wkb_view.specs.Entries.{entries, capacity, HasSlots};

use crate::any::{
    AnyView, Line, LineString, MultiLineString, MultiPoint, Point, Polygon, Rect, Triangle,
};
use crate::as_written::{AsWritten, flags_without_srid};
use crate::counts::Counts;
use crate::lent::are_bytes;
use crate::own_srid::OwnSrid;
use crate::reserved::{Reserved, counted_list};
use std::alloc::{AllocError, Global};
use std::marker::Model;
use wkb_geom::code::{POLYGON, WkbType};
use wkb_geom::header::{MEMBER_HEADER_SIZE, MIN_MEMBER_SIZE};
use wkb_geom::words::{COUNT_SIZE, u32_at};
use wkb_geom::{
    Dimension, Dimensioned, Dimensions, Endianness, Form, GeometryTrait, GeometryType, Layout,
    MultiPolygonTrait, ReadError, by_order,
};

/// A multi polygon.
#[derive(Debug, Drop)]
pub struct MultiPolygon<'a> {
    buf: &'a [u8],
    layout: Layout,
    members: Vec<Polygon<'a>>,
}

impl<'a> Model for MultiPolygon<'a> {
    ghost use Rattle.std.specs.Prelude.{◌+◌, length, ◌≤◌, List};
    ghost use Rattle.wkb_geom.specs.Stored.{listed_code, polygons_code};
    ghost use Rattle.wkb_view.specs.Prelude.{body_start, Listed, Coordinate, BytesSpell};
    ghost use Rattle.wkb_view.specs.Members.{polygons_laid, multi_polygon_seen, AreOfDimension};

    ghost Value = { Listed (List (List (List Coordinate))) };

    ghost coded = { listed_code polygons_code };

    ghost invariant = { λ a. (body_start a.layout.has_srid + 4 ≤ length a.buf.now)
        × AreOfDimension a.layout.dimension a.members.items
        × BytesSpell (multi_polygon_seen (polygons_laid a.layout a.members.items a.buf.now)) };

    ghost view = { λ a. polygons_laid a.layout a.members.items a.buf.now };
}

impl<'a> MultiPolygon<'a> {
    ghost use Rattle.std.specs.Prelude.{◌≡◌, length, IfOk};
    ghost use Rattle.wkb_geom.specs.declared.code.WkbType.TheVariants as kinds;
    ghost use Rattle.wkb_view.specs.Prelude.{multi_polygon_at};
    ghost use Rattle.wkb_view.specs.Headers.{HasHead};
    ghost use Rattle.wkb_view.specs.Members.{multi_polygon_seen};
    ghost use Rattle.wkb_view.specs.Outcome.{TakesAtLeast, CanCount, RefusesWithoutSlots};
    ghost use Rattle.wkb_view.specs.Reads.{ReadsMultiPolygon};
    ghost use Rattle.wkb_view.specs.Lends.{Lends};

    /// The number of its bytes.
    #[inline]
    pub fn size(&self) -> u64
        ensures { result ≡ length self.now.encoding }
    {
        self.buf.len() as u64
    }

    /// Its dimension.
    #[inline]
    pub fn dimension(&self) -> Dimension
        ensures { result ≡ self.now.dimension }
    {
        self.layout.dimension
    }

    /// The bytes of this geometry, from its order byte to its end.
    #[inline]
    pub fn buf(&self) -> &'a [u8]
        ensures { Lends (multi_polygon_seen self.now) result.now }
    {
        are_bytes(self.buf);
        self.buf
    }

    /// The multi polygon after this header, and the bytes after it.
    #[tactic(auto, using(crate::proofs::Lists::polygons_within, crate::proofs::Items::slice_laws))]
    #[inline(always)]
    pub fn read(
        alloc: Global,
        layout: Layout,
        bytes: &'a [u8],
        counts: &mut Counts,
    ) -> Result<(MultiPolygon<'a>, &'a [u8]), ReadError>
        requires fits { CanCount counts.old (multi_polygon_at layout bytes.now).0 }
        requires head { HasHead (λ d. kinds.MultiPolygon d) layout bytes.now }
        ensures answer { ReadsMultiPolygon layout bytes.now result counts.old counts.new }
        ensures shorter { IfOk result (TakesAtLeast MIN_MEMBER_SIZE bytes.now) }
        ensures no_memory { RefusesWithoutSlots (multi_polygon_at layout bytes.now) result }
    {
        let (count, members) = counted_list(alloc, layout, bytes, MIN_MEMBER_SIZE, counts)?;
        let (members, rest) = read_members(alloc, layout, bytes, members, count, counts)?;
        let multi_polygon = MultiPolygon {
            buf: &bytes[..bytes.len() - rest.len()],
            layout,
            members: members.into_vec(),
        };
        Ok((multi_polygon, rest))
    }
}

/// The order of the polygon of this dimension at the start of the bytes, if its code is one that ISO or EWKB writes of
/// it without an SRID.
#[inline(always)]
fn order_of_plain(dimension: Dimension, bytes: &[u8]) -> Option<Endianness>
    ensures { IfSome result (λ order. member_layout POLYGON dimension bytes.now ≡
        Ok (laid order dimension false)) }
{
    if bytes.len() < MEMBER_HEADER_SIZE {
        return None;
    }
    let order = Endianness::of_byte(bytes[0])?;
    let code = u32_at(bytes, 1, order);
    if code != WkbType::Polygon(dimension).iso_code() && !has_flags(dimension, code) {
        return None;
    }
    Some(order)
}

/// Whether a code is the one that EWKB writes of a polygon of this dimension without an SRID. It isn't inlined, so that
/// the code isn't kept through a loop over members that have ISO's.
#[inline(never)]
fn has_flags(dimension: Dimension, code: u32) -> bool
    ensures has { result ≡ true → code ≡ ewkb_code POLYGON dimension false }
    ensures has_not { result ≡ false → code ≢ ewkb_code POLYGON dimension false }
{
    code == WkbType::Polygon(dimension).ewkb_code(false)
}

/// The polygon of this dimension at the start of the bytes, and the bytes after it.
fn read_member<'a>(
    alloc: Global,
    dimension: Dimension,
    bytes: &'a [u8],
    counts: &mut Counts,
) -> Result<(Polygon<'a>, &'a [u8]), ReadError>
    requires fits { CanCount counts.old (member_at POLYGON dimension bytes.now).0 }
    ensures dimension { IfOk result (λ x. x.0.dimension ≡ dimension) }
    ensures answer { ReadsMember dimension bytes.now result counts.old counts.new }
    ensures shorter { IfOk result (TakesAtLeast MIN_MEMBER_SIZE bytes.now) }
    ensures no_memory { RefusesWithoutSlots (member_at POLYGON dimension bytes.now) result }
{
    // Most members are plain. Of these the order and the lack of an SRID are constants in what follows.
    match order_of_plain(dimension, bytes) {
        Some(order) => by_order!(
            order,
            {
                let layout = Layout {
                    order,
                    dimension,
                    has_srid: false,
                };
                Polygon::read(alloc, layout, bytes, counts)
            }
        ),
        None => read_other(alloc, dimension, bytes, counts),
    }
}

/// As `read_member`, with any header. It isn't inlined, so that plain members don't pay for its frame.
#[inline(never)]
fn read_other<'a>(
    alloc: Global,
    dimension: Dimension,
    bytes: &'a [u8],
    counts: &mut Counts,
) -> Result<(Polygon<'a>, &'a [u8]), ReadError>
    requires fits { CanCount counts.old (member_at POLYGON dimension bytes.now).0 }
    ensures dimension { IfOk result (λ x. x.0.dimension ≡ dimension) }
    ensures answer { ReadsMember dimension bytes.now result counts.old counts.new }
    ensures shorter { IfOk result (TakesAtLeast MIN_MEMBER_SIZE bytes.now) }
    ensures no_memory { RefusesWithoutSlots (member_at POLYGON dimension bytes.now) result }
{
    let layout = Layout::of_member(WkbType::Polygon(dimension), bytes)?;
    Polygon::read(alloc, layout, bytes, counts)
}

/// `count` polygons, and the bytes after them.
fn read_members<'a>(
    alloc: Global,
    layout: Layout,
    bytes: &'a [u8],
    mut members: Reserved<Polygon<'a>>,
    count: u32,
    counts: &mut Counts,
) -> Result<(Reserved<Polygon<'a>>, &'a [u8]), ReadError>
    requires whole { body_start layout.has_srid + COUNT_SIZE ≤ length bytes.now }
    requires empty { entries members ≡ [] }
    requires room { HasSlots MIN_MEMBER_SIZE layout count bytes.now (capacity members) }
    requires fits { CanCount counts.old (members_behind POLYGON layout count bytes.now).0 }
    ensures dimension { IfOk result (λ x. AreOfDimension layout.dimension (entries x.0)) }
    ensures polygons { ReadsMembers layout count bytes.now result counts.old counts.new }
    ensures shorter { IfOk result (λ x. IsAfterCount layout bytes.now x.1.now) }
    ensures no_memory { RefusesWithoutSlots (members_behind POLYGON layout count bytes.now) result }
{
    // Counted in a local: what is behind a reference is stored before each allocation.
    let mut own = *counts;
    let mut rest = layout.after_count(bytes);
    for _ in 0..count {
        own.turns += 1;
        match read_member(alloc, layout.dimension, rest, &mut own) {
            Ok((polygon, after)) => {
                members.push(polygon);
                rest = after;
            }
            Err(error) => {
                *counts = own;
                return Err(error);
            }
        }
    }
    *counts = own;
    Ok((members, rest))
}

/// A copy with lists of its own.
impl<'a> Clone for MultiPolygon<'a> {
    ghost use Rattle.std.specs.Prelude.{◌≡◌};

    ghost is_clone = { λ multi copy. copy ≡ multi };

    fn clone(&self) -> Result<MultiPolygon<'a>, AllocError> {
        Ok(MultiPolygon {
            buf: self.buf,
            layout: self.layout,
            members: self.members.clone()?,
        })
    }
}

impl OwnSrid for MultiPolygon<'_> {
    ghost spelled = { λ s. s.spelled };

    #[inline]
    fn srid(&self) -> Option<u32> {
        self.layout.srid(self.buf)
    }
}

impl AsWritten for MultiPolygon<'_> {
    ghost use Rattle.wkb_view.specs.Members.{multi_polygon_seen};

    ghost seen = { multi_polygon_seen };

    fn is_as_written(&self, order: Endianness, has_flags: bool) -> bool {
        let wkb_type = WkbType::MultiPolygon(self.layout.dimension);
        if !self.layout.begins_as(wkb_type, self.buf, order, has_flags) {
            return false;
        }
        for i in 0..self.num_polygons() {
            if !self.polygon(i).unwrap().is_as_written(order, has_flags) {
                return false;
            }
        }
        true
    }
}

impl Dimensioned for MultiPolygon<'_> {
    ghost dimensions = { λ g. as_dimensions g.dimension };

    #[inline]
    fn dim(&self) -> Dimensions {
        self.layout.dimension.into()
    }
}

impl<'a> MultiPolygonTrait for MultiPolygon<'a> {
    ghost use Rattle.std.specs.Prelude.{◌≡◌, option_map, IfSome};
    ghost use Rattle.wkb_geom.specs.Found.{IsItemAt};
    ghost use Rattle.wkb_view.specs.Prelude.{as_dimensions, spelling_at};
    ghost use Rattle.wkb_laws.specs.Fits.{fitted_parts, fitted_members};
    ghost use Rattle.wkb_view.specs.Lawful.{polygons_fit};

    type InnerPolygonType = Polygon<'a>;

    ghost polygons = { fitted_members };

    ghost lawful = { λ m. (polygons_fit (as_dimensions m.dimension) m.parts).lawful };

    #[inline]
    fn num_polygons(&self) -> usize {
        self.members.len()
    }

    #[inline]
    fn polygon(&self, i: usize) -> Option<&Polygon<'a>>
        ensures value { IsItemAt (λ p. fitted_parts p.now) result (fitted_members self.now) i }
        ensures part { IsItemAt (λ p. p.now.parts) result self.now.parts i }
        ensures dimension { IfSome result (λ p. p.now.dimension ≡ self.now.dimension) }
        ensures spelled { option_map (λ p. p.now.spelled) result ≡ spelling_at self.now.spelled i }
    {
        self.members.get(i)
    }
}

impl<'a> GeometryTrait for MultiPolygon<'a> {
    ghost use Rattle.std.specs.Prelude.{◌≡◌, refl};
    ghost use Rattle.wkb_geom.specs.declared.geom.GeometryType.TheVariants.{MultiPolygon as Handed};
    ghost use Rattle.wkb_geom.specs.Geometries.{multi_polygon};
    ghost use Rattle.wkb_view.specs.Prelude.{as_dimensions};
    ghost use Rattle.wkb_laws.specs.Fits.{fitted_members};
    ghost use Rattle.wkb_view.specs.Lawful.{polygons_fit};

    type PointType = Point<'a>;

    type LineStringType = LineString<'a>;

    type PolygonType = Polygon<'a>;

    type MultiPointType = MultiPoint<'a>;

    type MultiLineStringType = MultiLineString<'a>;

    type MultiPolygonType = MultiPolygon<'a>;

    type RectType = Rect<'a>;

    type TriangleType = Triangle<'a>;

    type LineType = Line<'a>;

    ghost geometry = { λ m. multi_polygon (as_dimensions m.dimension) (fitted_members m) };

    ghost one_dimension = { λ g. refl };

    ghost lawful = { λ m. (polygons_fit (as_dimensions m.dimension) m.parts).lawful };

    #[inline]
    fn as_type(&self) -> AnyView<'_, 'a, MultiPolygon<'a>>
        ensures view { result ≡ Handed self.entry }
    {
        GeometryType::MultiPolygon(self)
    }

    #[inline]
    fn as_written(&self, order: Endianness, form: Form) -> Option<&[u8]> {
        let has_flags = flags_without_srid(form)?;
        self.is_as_written(order, has_flags).then_some(self.buf)
    }

    // The trait's default, which the check would prove again here, in some seven seconds.
    #[inline]
    fn byte_size(&self) -> Option<usize> {
        None
    }
}
