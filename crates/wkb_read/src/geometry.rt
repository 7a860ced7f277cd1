//! Collections, and geometries of any kind.

ghost use Rattle.wkb_read.specs.Prelude.{as_dimensions};
ghost use Rattle.wkb_view.specs.Lends.{members_seen, geometry_seen};
ghost use Rattle.wkb_view.proofs.ViewLaws.{members_lawful, geometry_lawful, one_dimension_seen};

use crate::geometry_type::GeometryType as TypeName;
use crate::read::read_wkb;
use crate::srids::size_without_srid;
use std::alloc::{AllocError, Global};
use std::marker::Model;
use wkb_geom::code::WkbType;
use wkb_geom::error::WkbResult;
use wkb_geom::{
    Dimension, Dimensioned, Dimensions, Endianness, Form, GeometryCollectionTrait, GeometryTrait,
    GeometryType, Layout,
};
use wkb_plain::{Line, Rect, Triangle};
use wkb_view::any::AnyView;
use wkb_view::as_written::{AsWritten, flags_without_srid};
use wkb_view::lent::are_bytes;
use wkb_view::line_string::LineString;
use wkb_view::multi_line_string::MultiLineString;
use wkb_view::multi_point::MultiPoint;
use wkb_view::multi_polygon::MultiPolygon;
use wkb_view::own_srid::OwnSrid;
use wkb_view::point::Point;
use wkb_view::polygon::Polygon;

/// A collection of geometries of any kind.
#[cycle(geometry)]
#[derive(Debug, Drop)]
pub struct GeometryCollection<'a> {
    pub(crate) buf: &'a [u8],
    pub(crate) layout: Layout,
    // How many members may have an SRID. It fills the slot that `LineString::count` has in `View`, so no view grows.
    pub(crate) with_srids: u32,
    pub(crate) members: Vec<Wkb<'a>>,
}

/// The view of its kind.
#[cycle(geometry)]
#[derive(Debug, Drop)]
pub(crate) enum View<'a> {
    Point(Point<'a>),
    LineString(LineString<'a>),
    Polygon(Polygon<'a>),
    MultiPoint(MultiPoint<'a>),
    MultiLineString(MultiLineString<'a>),
    MultiPolygon(MultiPolygon<'a>),
    GeometryCollection(GeometryCollection<'a>),
}

/// A geometry of any kind.
#[cycle(geometry)]
#[derive(Debug)]
pub struct Wkb<'a> {
    pub(crate) kind: View<'a>,
}

// Not derived: a derived `drop` would be written out, and proved, wherever a geometry is dropped. It is inlined all the
// same, since for a point there is nothing to do.
impl Drop for Wkb<'_> {
    #[cycle(geometry)]
    #[inline(always)]
    fn drop(self) {
        let Wkb { kind: _ } = self;
    }
}

impl<'a> Model for GeometryCollection<'a> {
    ghost use Rattle.wkb_read.specs.Prelude.{Values, Listed, listed_code, values_code, max_nesting, nest_each, values};
    ghost use Rattle.wkb_view.specs.Nodes.{size_inside};
    ghost use Rattle.wkb_view.proofs.MembersFall.{members_fall};
    ghost use Rattle.std.specs.Prelude.{◌≡◌, ◌<◌};
    ghost use Rattle.wkb_read.specs.Places.{IsCollectionIn, parts_in};
    ghost use Rattle.wkb_read.specs.NoSrids.{HaveNoSrids};

    ghost Value = { Listed Values };

    ghost coded = { listed_code values_code };

    ghost invariant = { λ a. IsCollectionIn a.layout a.members.items a.buf.now
        × (a.with_srids ≡ 0 → HaveNoSrids a.members.items)
        × (nest_each (values a.members.items) < max_nesting) };

    ghost view = { λ a. parts_in a.layout a.members.items a.buf.now };

    ghost size = { size_inside };

    ghost size_decreases = { λ a h. members_fall a.members.items };
}

impl<'a> Model for Wkb<'a> {
    ghost use Rattle.wkb_read.specs.Prelude.{Item, item_code};
    ghost use Rattle.wkb_view.specs.Nodes.{size_outside};

    ghost Value = { Item };

    ghost coded = { item_code };

    ghost use Rattle.wkb_read.specs.Items.{kind_seen};

    ghost view = { λ a. kind_seen a.kind };

    ghost size = { size_outside };

    ghost use Rattle.wkb_read.specs.ItemsFall.{kind_falls};

    ghost size_decreases = { λ a h. kind_falls a.kind };
}

impl<'a> GeometryCollection<'a> {
    ghost use Rattle.std.specs.Prelude.{◌≡◌, true, IfOk, length};
    ghost use Rattle.wkb_read.specs.Prelude.{srid_of, IsSpelledAsWritten};
    ghost use Rattle.wkb_read.specs.Places.{collection_seen};
    ghost use Rattle.wkb_read.specs.Reads.{Lends};

    /// The number of its bytes.
    #[inline]
    pub fn size(&self) -> u64
        ensures { result ≡ length self.now.encoding }
    {
        self.buf.len() as u64
    }

    /// Its dimension.
    #[inline]
    pub fn dimension(&self) -> Dimension
        ensures { result ≡ self.now.dimension }
    {
        self.layout.dimension
    }

    /// The bytes of this geometry, from its order byte to its end.
    #[inline]
    pub fn buf(&self) -> &'a [u8]
        ensures { Lends (collection_seen self.now) result.now }
    {
        are_bytes(self.buf);
        self.buf
    }

    /// The SRID in its bytes, where there is one.
    #[inline]
    pub(crate) fn srid(&self) -> Option<u32>
        ensures { result ≡ srid_of self.now.spelled }
    {
        self.layout.srid(self.buf)
    }

    /// Whether its bytes are known to be its encoding in this order, with EWKB's flags or without, and with no SRID.
    /// Its own header is looked at, and then each member, up to the first that would be written otherwise.
    ///
    /// The last call looks at the last member. The compiler makes it a jump, so that the stack stays flat along a chain
    /// of collections.
    #[tactic(auto, using(crate::proofs::AsWritten::written_laws))]
    #[cycle(spellings)]
    fn is_as_written(&self, order: Endianness, has_flags: bool) -> bool
        ensures { result ≡ true → IsSpelledAsWritten order has_flags (collection_seen self.now) }
    {
        let wkb_type = WkbType::GeometryCollection(self.layout.dimension);
        if !self.layout.begins_as(wkb_type, self.buf, order, has_flags) {
            return false;
        }
        let Some((last, others)) = self.members.split_last() else {
            return true;
        };
        for member in others {
            if !member.is_as_written(order, has_flags) {
                return false;
            }
        }
        last.is_as_written(order, has_flags)
    }

    /// A copy with lists of its own.
    ///
    /// Fails where an allocation does.
    #[cycle(clones)]
    pub fn clone(&self) -> Result<GeometryCollection<'a>, AllocError>
        ensures { IfOk result (λ c. c ≡ self.now) }
    {
        let mut members = Vec::with_capacity(*self.members.allocator(), self.members.len())?;
        for member in &self.members {
            members.push(member.clone()?)?;
        }
        Ok(GeometryCollection {
            buf: self.buf,
            layout: self.layout,
            members,
            with_srids: self.with_srids,
        })
    }
}

impl Dimensioned for GeometryCollection<'_> {
    ghost dimensions = { λ c. as_dimensions c.dimension };

    #[inline]
    fn dim(&self) -> Dimensions {
        self.layout.dimension.into()
    }
}

impl<'a> GeometryCollectionTrait for GeometryCollection<'a> {
    ghost use Rattle.std.specs.Prelude.{◌≡◌, map, option_map};
    ghost use Rattle.wkb_geom.specs.Found.{IsItemAt};
    ghost use Rattle.wkb_read.specs.Places.{AreMembers, IsMemberAt};

    type GeometryType = Wkb<'a>;

    ghost members = { λ c. members_seen c.parts };

    ghost lawful = { λ c. members_lawful c.parts };

    #[tactic(auto, using(crate::proofs::Parts::members_mean, crate::proofs::Places::are_members))]
    #[inline]
    fn geometries(&self) -> &[Wkb<'a>]
        ensures members { map geometry_seen result.now ≡ members_seen self.now.parts }
        ensures all { AreMembers self.now result.now }
    {
        self.members.as_slice()
    }

    #[tactic(auto, using(crate::proofs::Parts::members_counted))]
    #[inline]
    fn num_geometries(&self) -> usize {
        self.geometries().len()
    }

    #[tactic(auto, using(crate::proofs::Parts::member_means, crate::proofs::Parts::member_is))]
    #[inline]
    fn geometry(&self, i: usize) -> Option<&Wkb<'a>>
        ensures member { IsItemAt (λ g. geometry_seen g.now) result
            (members_seen self.now.parts) i }
        ensures one { IsMemberAt self.now i (option_map (λ g. g.now) result) }
    {
        self.geometries().get(i)
    }
}

impl<'a> Wkb<'a> {
    ghost use Rattle.std.specs.Prelude.{◌≡◌, true, None, IfOk, IfErr, IfSome, IsSome};
    ghost use Rattle.wkb_read.specs.Prelude.{srid_of, dimension, IsCollection, IsSpelledAsWritten};
    ghost use Rattle.wkb_read.specs.Places.{collection_seen};
    ghost use Rattle.wkb_read.specs.Types.{geometry_type_of, IsListed};
    ghost use Rattle.wkb_read.specs.Reads.{Reads, Lends};

    /// The geometry at the start of the bytes, as `read_wkb` returns it. They aren't checked first: for a hostile
    /// megabyte hundreds may be allocated before it is rejected. In Rust, `reader::read_wkb` has a limit.
    ///
    /// Rejected as `read_wkb` rejects the bytes.
    pub fn try_new(alloc: Global, buf: &'a [u8]) -> WkbResult<Wkb<'a>>
        ensures { Reads buf.now result }
    {
        read_wkb(alloc, buf)
    }

    /// Its dimension.
    pub fn dimension(&self) -> Dimension
        ensures { result ≡ dimension self.now.value }
    {
        match &self.kind {
            View::Point(point) => point.dimension(),
            View::LineString(line_string) => line_string.dimension(),
            View::Polygon(polygon) => polygon.dimension(),
            View::MultiPoint(multi) => multi.dimension(),
            View::MultiLineString(multi) => multi.dimension(),
            View::MultiPolygon(multi) => multi.dimension(),
            View::GeometryCollection(collection) => collection.dimension(),
        }
    }

    /// The kind of geometry that it is.
    pub fn geometry_type(&self) -> TypeName
        ensures { result ≡ geometry_type_of self.now.value }
    {
        match &self.kind {
            View::Point(_) => TypeName::Point,
            View::LineString(_) => TypeName::LineString,
            View::Polygon(_) => TypeName::Polygon,
            View::MultiPoint(_) => TypeName::MultiPoint,
            View::MultiLineString(_) => TypeName::MultiLineString,
            View::MultiPolygon(_) => TypeName::MultiPolygon,
            View::GeometryCollection(_) => TypeName::GeometryCollection,
        }
    }

    /// The bytes of this geometry, from its order byte to its end.
    pub fn buf(&self) -> &'a [u8]
        ensures { Lends self.now result.now }
    {
        match &self.kind {
            View::Point(point) => point.buf(),
            View::LineString(line_string) => line_string.buf(),
            View::Polygon(polygon) => polygon.buf(),
            View::MultiPoint(multi) => multi.buf(),
            View::MultiLineString(multi) => multi.buf(),
            View::MultiPolygon(multi) => multi.buf(),
            View::GeometryCollection(collection) => collection.buf(),
        }
    }

    /// The SRID of this geometry's own code, where there is one.
    #[inline]
    pub fn srid(&self) -> Option<u32>
        ensures { result ≡ srid_of self.now.spelled }
    {
        match &self.kind {
            View::Point(point) => point.srid(),
            View::LineString(line_string) => line_string.srid(),
            View::Polygon(polygon) => polygon.srid(),
            View::MultiPoint(multi) => multi.srid(),
            View::MultiLineString(multi) => multi.srid(),
            View::MultiPolygon(multi) => multi.srid(),
            View::GeometryCollection(collection) => collection.srid(),
        }
    }

    /// Whether its bytes are known to be its encoding in this order, with EWKB's flags or without, and with no SRID.
    /// Most geometries have no members, and take no call.
    #[cycle(spellings)]
    #[inline(always)]
    fn is_as_written(&self, order: Endianness, has_flags: bool) -> bool
        ensures { result ≡ true → IsSpelledAsWritten order has_flags self.now }
    {
        match &self.kind {
            View::Point(point) => point.is_as_written(order, has_flags),
            View::LineString(line_string) => line_string.is_as_written(order, has_flags),
            View::Polygon(polygon) => polygon.is_as_written(order, has_flags),
            _ => self.has_members_as_written(order, has_flags),
        }
    }

    /// Whether it has members, and its bytes are known to be that encoding.
    #[cycle(spellings)]
    #[inline(never)]
    fn has_members_as_written(&self, order: Endianness, has_flags: bool) -> bool
        ensures { result ≡ true → IsSpelledAsWritten order has_flags self.now }
    {
        match &self.kind {
            View::MultiPoint(multi) => multi.is_as_written(order, has_flags),
            View::MultiLineString(multi) => multi.is_as_written(order, has_flags),
            View::MultiPolygon(multi) => multi.is_as_written(order, has_flags),
            View::GeometryCollection(collection) => collection.is_as_written(order, has_flags),
            _ => false,
        }
    }

    /// The collection that this is, if it is one.
    pub fn as_geometry_collection(&self) -> Option<&GeometryCollection<'a>>
        ensures some { IsCollection self.now.value → IsSome result }
        ensures collection { IfSome result (λ c. collection_seen c.now ≡ self.now) }
    {
        match &self.kind {
            View::GeometryCollection(collection) => Some(collection),
            _ => None,
        }
    }

    /// A copy with lists of its own.
    ///
    /// Fails where an allocation does.
    #[cycle(clones)]
    pub fn clone(&self) -> Result<Wkb<'a>, AllocError>
        ensures same { IfOk result (λ w. w ≡ self.now) }
        ensures listed { IfErr result (λ e. IsListed self.now.value) }
    {
        let kind = match &self.kind {
            View::Point(point) => View::Point(*point),
            View::LineString(line_string) => View::LineString(*line_string),
            View::Polygon(polygon) => View::Polygon(polygon.clone()?),
            View::MultiPoint(multi) => View::MultiPoint(*multi),
            View::MultiLineString(multi) => View::MultiLineString(multi.clone()?),
            View::MultiPolygon(multi) => View::MultiPolygon(multi.clone()?),
            View::GeometryCollection(collection) => View::GeometryCollection(collection.clone()?),
        };
        Ok(Wkb { kind })
    }
}

impl Dimensioned for Wkb<'_> {
    ghost use Rattle.wkb_read.specs.Prelude.{dimension};

    ghost dimensions = { λ w. as_dimensions (dimension w.value) };

    #[inline]
    fn dim(&self) -> Dimensions {
        self.dimension().into()
    }
}

impl<'a> GeometryTrait for Wkb<'a> {
    ghost use Rattle.std.specs.Prelude.{◌≡◌, true, None, IfSome, IsSome};
    ghost use Rattle.wkb_geom.specs.Encodings.{fault};
    ghost use Rattle.wkb_geom.specs.Sizes.{byte_size};
    ghost use Rattle.wkb_read.specs.NoSrids.{tells_size};
    ghost use Rattle.wkb_read.specs.Views.{IsViewOf};

    type PointType = Point<'a>;

    type LineStringType = LineString<'a>;

    type PolygonType = Polygon<'a>;

    type MultiPointType = MultiPoint<'a>;

    type MultiLineStringType = MultiLineString<'a>;

    type MultiPolygonType = MultiPolygon<'a>;

    type RectType = Rect<'a>;

    type TriangleType = Triangle<'a>;

    type LineType = Line<'a>;

    ghost geometry = { geometry_seen };

    ghost one_dimension = { one_dimension_seen };

    ghost lawful = { geometry_lawful };

    /// The bytes, where they are the encoding in this order and form.
    ///
    /// None if a point in them is empty, and where there is an SRID or one is to be written.
    #[inline(always)]
    fn as_written(&self, order: Endianness, form: Form) -> Option<&[u8]> {
        let has_flags = flags_without_srid(form)?;
        if self.is_as_written(order, has_flags) {
            Some(self.buf())
        } else {
            None
        }
    }

    /// The number of its bytes without those of its own SRID.
    ///
    /// None if a member has an SRID, and for multi line strings, multi polygons and collections of these: reading
    /// doesn't keep which of their parts have an SRID.
    #[tactic(auto, using(crate::proofs::NoSrids::size_laws))]
    #[inline]
    fn byte_size(&self) -> Option<usize>
        ensures size { IfSome result (λ n. n ≡ byte_size (geometry_seen self.now)) }
        ensures writable { IfSome result (λ _. fault (geometry_seen self.now) ≡ None) }
        ensures some { tells_size self.now.value ≡ true → IsSome result }
    {
        if self.may_hold_srids() {
            return None;
        }
        Some(size_without_srid(self.buf(), self.srid()))
    }

    /// The view of its kind.
    ///
    /// ```
    /// // How many coordinates a line string has.
    /// let count = match wkb.as_type() {
    ///     GeometryType::LineString(line) => line.num_coords(),
    ///     _ => 0,
    /// };
    /// ```
    fn as_type(&self) -> AnyView<'_, 'a, Wkb<'a>>
        ensures view { IsViewOf self.now result }
    {
        match &self.kind {
            View::Point(point) => GeometryType::Point(point),
            View::LineString(line_string) => GeometryType::LineString(line_string),
            View::Polygon(polygon) => GeometryType::Polygon(polygon),
            View::MultiPoint(multi) => GeometryType::MultiPoint(multi),
            View::MultiLineString(multi) => GeometryType::MultiLineString(multi),
            View::MultiPolygon(multi) => GeometryType::MultiPolygon(multi),
            View::GeometryCollection(collection) => {
                GeometryType::GeometryCollection(collection.geometries())
            }
        }
    }
}

/// This collection, as a geometry of any kind.
impl<'a> From<GeometryCollection<'a>> for Wkb<'a> {
    ghost use Rattle.std.specs.Prelude.{◌≡◌};
    ghost use Rattle.wkb_read.specs.Places.{collection_seen};

    ghost from_gives = { λ c w. w ≡ collection_seen c };

    fn from(collection: GeometryCollection<'a>) -> Wkb<'a> {
        Wkb {
            kind: View::GeometryCollection(collection),
        }
    }
}
