//! What comes before a body: order, code and SRID; and the count after them.

ghost use Rattle.std.specs.Prelude.{◌≡◌, ◌+◌, IfSome, Some, true, false};
ghost use Rattle.wkb_geom.specs.Codes.{srid_flag};
ghost use Rattle.wkb_geom.specs.Reading.{meaning, meaning_of};

use crate::code::{
    GEOMETRY_COLLECTION, LINE_STRING, MULTI_LINE_STRING, MULTI_POINT, MULTI_POLYGON, POINT,
    POLYGON, SRID_FLAG, WkbGeometryCode, WkbType, of_kind,
};
use crate::common::{Dimension, Endianness};
use crate::error::{Cause, General};
use crate::words::{COUNT_SIZE, u32_at};

/// The size of an order byte.
const ORDER_SIZE: usize = 1;

/// The size of a code.
const CODE_SIZE: usize = 4;

/// The size of an SRID.
pub const SRID_SIZE: usize = 4;

/// The size of a header without an SRID, as each member's is written.
pub const MEMBER_HEADER_SIZE: usize = ORDER_SIZE + CODE_SIZE;

/// The size of a header with an SRID.
pub const MAX_HEADER_SIZE: usize = MEMBER_HEADER_SIZE + SRID_SIZE;

/// The size of the shortest member: a header, and a count.
pub const MIN_MEMBER_SIZE: usize = MEMBER_HEADER_SIZE + COUNT_SIZE;

/// A header, decoded: the order of its numbers, what its code means, and so whether an SRID follows the code.
#[derive(Clone, Copy, Debug, PartialEq)]
pub struct Head {
    pub order: Endianness,
    pub wkb_type: WkbType,
    pub has_srid: bool,
}

/// How the body after a header is laid out.
#[derive(Clone, Copy, Debug, PartialEq)]
pub struct Layout {
    pub order: Endianness,
    pub dimension: Dimension,
    pub has_srid: bool,
}

/// The type of a code that is the number of a kind and nothing else.
#[tactic(auto, unfolding(crate::specs::Reading::meaning_of))]
#[inline(always)]
fn type_of_bare(code: u32) -> Option<WkbType>
    ensures alone { IfSome result (λ t. meaning_of code ≡ Some (meaning t false)) }
    ensures flagged { IfSome result (λ t. meaning_of (srid_flag + code) ≡ Some (meaning t true)) }
{
    match code {
        POINT => Some(WkbType::Point(Dimension::Xy)),
        LINE_STRING => Some(WkbType::LineString(Dimension::Xy)),
        POLYGON => Some(WkbType::Polygon(Dimension::Xy)),
        MULTI_POINT => Some(WkbType::MultiPoint(Dimension::Xy)),
        MULTI_LINE_STRING => Some(WkbType::MultiLineString(Dimension::Xy)),
        MULTI_POLYGON => Some(WkbType::MultiPolygon(Dimension::Xy)),
        GEOMETRY_COLLECTION => Some(WkbType::GeometryCollection(Dimension::Xy)),
        _ => None,
    }
}

/// The type of a code without flags, by comparisons: a division takes longer.
#[inline(always)]
fn type_of_iso(code: u32) -> Option<WkbType>
    ensures { IfSome result (λ t. meaning_of code ≡ Some (meaning t false)) }
{
    if let Some(wkb_type) = type_of_bare(code) {
        return Some(wkb_type);
    }
    match code {
        1001..=1007 => Some(of_kind(code - 1000, Dimension::Xyz)),
        2001..=2007 => Some(of_kind(code - 2000, Dimension::Xym)),
        3001..=3007 => Some(of_kind(code - 3000, Dimension::Xyzm)),
        _ => None,
    }
}

impl Head {
    ghost use Rattle.std.specs.Prelude.{◌≡◌, IfSome, Ok, false};
    ghost use Rattle.wkb_geom.specs.Reading.{head_at, layout_of};

    /// The header at the start of the bytes, or why there is none. Its geometry may follow.
    #[inline(always)]
    pub fn read(bytes: &[u8]) -> Result<Head, Cause>
        ensures { head_at bytes.now ≡ result }
    {
        match Head::read_bare(bytes) {
            Some(header) => Ok(header),
            None => Head::read_any(bytes),
        }
    }

    /// Reads a header by the shortest way, if it has one of the most frequent codes: one without flags, or the number of
    /// a kind with the SRID flag.
    #[inline(always)]
    fn read_bare(bytes: &[u8]) -> Option<Head>
        ensures { IfSome result (λ header. head_at bytes.now ≡ Ok header) }
    {
        if bytes.len() < MEMBER_HEADER_SIZE {
            return None;
        }
        let order = Endianness::of_byte(bytes[0])?;
        let code = u32_at(bytes, ORDER_SIZE, order);
        let has_srid = SRID_FLAG <= code;
        // By arms, so that it is a constant in what follows whether an SRID is there.
        let wkb_type = if has_srid {
            type_of_bare(code - SRID_FLAG)?
        } else {
            type_of_iso(code)?
        };
        Some(Head {
            order,
            wkb_type,
            has_srid,
        })
    }

    /// Reads a header with any code.
    #[tactic(auto, unfolding(crate::specs::Reading::head_at))]
    #[inline]
    fn read_any(bytes: &[u8]) -> Result<Head, Cause>
        ensures { head_at bytes.now ≡ result }
    {
        let Some(first) = bytes.first() else {
            return Err(Cause::EndOfInput);
        };
        let Some(order) = Endianness::of_byte(*first) else {
            return Err(Cause::General(General::InvalidByteOrder));
        };
        if bytes.len() < MEMBER_HEADER_SIZE {
            return Err(Cause::EndOfInput);
        }
        let number = u32_at(bytes, ORDER_SIZE, order);
        let code = WkbGeometryCode::new(number);
        match code.known_type() {
            Some(wkb_type) => Ok(Head {
                order,
                wkb_type,
                has_srid: code.has_srid(),
            }),
            None => Err(Cause::General(General::CodeOutOfRange(number))),
        }
    }

    /// The order of the header at the start of the bytes, if it has the code that ISO writes of this type.
    #[inline]
    fn order_of_iso(wanted: WkbType, bytes: &[u8]) -> Option<Endianness>
        ensures head { IfSome result (λ order. head_at bytes.now ≡ Ok (record {
          order = order;
          wkb_type = wanted;
          has_srid = false;
        })) }
    {
        if bytes.len() < MEMBER_HEADER_SIZE {
            return None;
        }
        let order = Endianness::of_byte(bytes[0])?;
        if u32_at(bytes, ORDER_SIZE, order) != u32::from(wanted) {
            return None;
        }
        Some(order)
    }

    /// How the body after it is laid out.
    #[inline]
    pub fn layout(self) -> Layout
        ensures { result ≡ layout_of self }
    {
        Layout {
            order: self.order,
            dimension: self.wkb_type.dimension(),
            has_srid: self.has_srid,
        }
    }
}

impl Layout {
    ghost use Rattle.std.specs.Prelude.{◌≡◌, ◌+◌, ◌≤◌, Ok, IsOk, IfOk, IfErr, length, true, false};
    ghost use Rattle.std.specs.Prelude.{◌-◌, None};
    ghost use Rattle.wkb_geom.specs.Numbers.{AreBytes};
    ghost use Rattle.wkb_geom.specs.Reading.{body_start, member_layout, parts_start, srid_in, code_in};
    ghost use Rattle.wkb_geom.specs.Reading.{type_kind, type_dimension};
    ghost use Rattle.wkb_geom.specs.Reading.{count_in, HasNoCount};
    ghost use Rattle.wkb_geom.specs.Encodings.{type_code, form_with_flags};

    /// The layout of the member of this type at the start of the bytes, whose order and flag are its own.
    ///
    /// A member that is a point has no SRID. `IncorrectType` if another is there.
    #[inline(always)]
    pub fn of_member(wanted: WkbType, bytes: &[u8]) -> Result<Layout, Cause>
        ensures { member_layout (type_kind wanted) (type_dimension wanted) bytes.now ≡ result }
    {
        // Most members have the code that ISO writes.
        if let Some(order) = Head::order_of_iso(wanted, bytes) {
            return Ok(Layout {
                order,
                dimension: wanted.dimension(),
                has_srid: false,
            });
        }
        let header = Head::read_any(bytes)?;
        // By numbers: `==` of the seven kinds makes a proof of many cases (docs/PROVING.md).
        let found = header.wkb_type;
        let is_same = found.kind() == wanted.kind() && found.dimension() == wanted.dimension();
        let is_member = is_same && !(wanted.is_point() && header.has_srid);
        if !is_member {
            return Err(Cause::IncorrectType);
        }
        Ok(Layout {
            order: header.order,
            dimension: wanted.dimension(),
            has_srid: header.has_srid,
        })
    }

    /// The layout of a member that is known to be there. Its type was tested when it was read, so only its order and
    /// its flag are read again.
    #[tactic(auto, using(crate::proofs::Layouts::known_flagged, crate::proofs::Layouts::known_point))]
    #[inline]
    pub fn of_known_member(wanted: WkbType, bytes: &[u8]) -> Layout
        requires { IsOk (member_layout (type_kind wanted) (type_dimension wanted) bytes.now) }
        ensures { member_layout (type_kind wanted) (type_dimension wanted) bytes.now ≡ Ok result }
    {
        let Some(order) = Endianness::of_byte(bytes[0]) else {
            unreachable!()
        };
        let code = WkbGeometryCode::new(u32_at(bytes, ORDER_SIZE, order));
        Layout {
            order,
            dimension: wanted.dimension(),
            has_srid: !wanted.is_point() && code.has_srid(),
        }
    }

    /// Whether a geometry of this type and layout begins with the header that is written of it in this order, with
    /// EWKB's flags or without, and with no SRID.
    #[tactic(auto, unfolding(crate::specs::Encodings::code_of))]
    #[inline]
    pub fn begins_as(
        self,
        wkb_type: WkbType,
        buf: &[u8],
        order: Endianness,
        has_flags: bool,
    ) -> bool
        requires { MEMBER_HEADER_SIZE ≤ length buf.now }
        ensures order { result ≡ true → self.order ≡ order }
        ensures plain { result ≡ true → self.has_srid ≡ false }
        ensures code { result ≡ true
            → code_in order buf.now ≡ type_code (form_with_flags has_flags) wkb_type }
        ensures bytes { AreBytes buf.now }
    {
        if self.order != order || self.has_srid {
            return false;
        }
        let code = if has_flags {
            wkb_type.ewkb_code(false)
        } else {
            u32::from(wkb_type)
        };
        u32_at(buf, ORDER_SIZE, order) == code
    }

    /// The number of bytes before the body: order, code, and the SRID if there is one.
    #[inline]
    pub fn header_length(self) -> usize
        ensures { result ≡ body_start self.has_srid }
    {
        if self.has_srid {
            MAX_HEADER_SIZE
        } else {
            MEMBER_HEADER_SIZE
        }
    }

    /// The number of bytes after the header.
    #[inline]
    pub fn length_after_header(self, bytes: &[u8]) -> usize
        requires { body_start self.has_srid ≤ length bytes.now }
        ensures size { result ≡ length bytes.now - body_start self.has_srid }
        ensures bytes { AreBytes bytes.now }
    {
        bytes.len() - self.header_length()
    }

    /// The SRID in the bytes of a geometry of this layout, if it has one.
    #[inline]
    pub fn srid(self, buf: &[u8]) -> Option<u32>
        requires { body_start self.has_srid ≤ length buf.now }
        ensures { result ≡ srid_in self.order self.has_srid buf.now }
    {
        if self.has_srid {
            Some(u32_at(buf, MEMBER_HEADER_SIZE, self.order))
        } else {
            None
        }
    }

    /// The count at the beginning of the body, of coordinates, rings or members.
    #[inline]
    pub fn count(self, bytes: &[u8]) -> Result<u32, Cause>
        ensures counted { IfOk result (λ n. n ≡ count_in self bytes.now) }
        ensures whole { IfOk result (λ _. body_start self.has_srid + COUNT_SIZE ≤
            length bytes.now) }
        ensures refused { IfErr result (HasNoCount self bytes.now) }
    {
        let at = self.header_length();
        if bytes.len() < at + COUNT_SIZE {
            return Err(Cause::EndOfInput);
        }
        Ok(u32_at(bytes, at, self.order))
    }

    /// The bytes after the count.
    #[inline]
    pub fn after_count(self, bytes: &[u8]) -> &[u8]
        requires { body_start self.has_srid + COUNT_SIZE ≤ length bytes.now }
        ensures { result.now ≡ parts_start self.has_srid bytes.now }
    {
        &bytes[self.header_length()..][COUNT_SIZE..]
    }
}

impl Layout {
    ghost use Rattle.std.specs.Prelude.{◌≡◌, ◌≤◌, IfOk, IfErr, length};
    ghost use Rattle.wkb_geom.specs.Refusals.{point_end, line_string_end, ring_end};
    ghost use Rattle.wkb_geom.specs.Numbers.{number};
    ghost use Rattle.wkb_geom.specs.Reading.{EndsAt, EndsWith, point_at, point_item, line_string_at};
    ghost use Rattle.wkb_geom.specs.Reading.{line_string_item, ring_part, count_in, multi_point_at, refused};
    ghost use Rattle.wkb_geom.specs.Reading.{points_counted, HoldPoints};

    /// Where the point at the start of the bytes ends.
    #[tactic(auto, unfolding(crate::specs::Reading::point_at))]
    #[inline(always)]
    pub fn end_of_point(self, bytes: &[u8]) -> Result<usize, Cause>
        ensures answer { EndsAt (point_item self) (point_at self) bytes.now result }
        ensures end { IfOk result (λ end. end ≡ point_end self.dimension self.has_srid) }
        ensures whole { IfOk result (λ end. end ≤ length bytes.now) }
    {
        let end = self.header_length() + self.dimension.coordinate_size();
        if bytes.len() < end {
            return Err(Cause::General(General::ShortPoint {
                end: end as u64,
                len: bytes.len(),
            }));
        }
        Ok(end)
    }

    /// How many coordinates the line string at the start of the bytes has, and where it ends.
    #[tactic(auto, unfolding(crate::specs::Reading::line_string_at))]
    #[inline(always)]
    pub fn end_of_line_string(self, bytes: &[u8]) -> Result<(u32, usize), Cause>
        ensures answer { EndsWith (line_string_item self) (line_string_at self) bytes.now result }
        ensures counted { IfOk result (λ x. x.0 ≡ count_in self bytes.now) }
        ensures end { IfOk result (λ x. x.1 ≡ line_string_end self.dimension self.has_srid x.0) }
        ensures whole { IfOk result (λ x. x.1 ≤ length bytes.now) }
    {
        let count = self.count(bytes)?;
        let start = self.header_length() + COUNT_SIZE;
        let end = start as u64 + self.dimension.coordinate_size() as u64 * count as u64;
        if (bytes.len() as u64) < end {
            return Err(Cause::General(General::ShortLineString {
                end,
                len: bytes.len(),
            }));
        }
        Ok((count, end as usize))
    }

    /// How many coordinates the ring at the start of the bytes has, and where it ends. It is in a polygon of this
    /// layout.
    #[tactic(auto, unfolding(crate::specs::Reading::ring_at))]
    #[inline(always)]
    pub fn end_of_ring(self, bytes: &[u8]) -> Result<(u32, usize), Cause>
        ensures answer { EndsWith (λ ring. ring) (ring_part self) bytes.now result }
        ensures counted { IfOk result (λ x. x.0 ≡ number self.order COUNT_SIZE bytes.now) }
        ensures end { IfOk result (λ x. x.1 ≡ ring_end self.dimension x.0) }
        ensures whole { IfOk result (λ x. x.1 ≤ length bytes.now) }
    {
        if bytes.len() < COUNT_SIZE {
            return Err(Cause::EndOfInput);
        }
        let count = u32_at(bytes, 0, self.order);
        let end = COUNT_SIZE as u64 + self.dimension.coordinate_size() as u64 * count as u64;
        if (bytes.len() as u64) < end {
            return Err(Cause::General(General::ShortLinearRing {
                end,
                len: bytes.len(),
            }));
        }
        Ok((count, end as usize))
    }

    /// How many points the multi point at the start of the bytes has, if the bytes are as many as these take. The
    /// points aren't looked at.
    #[tactic(auto, unfolding(crate::specs::Reading::multi_point_at))]
    #[inline(always)]
    pub fn count_of_points(self, bytes: &[u8]) -> Result<u32, Cause>
        ensures answer { points_counted self bytes.now ≡ result }
        ensures counted { IfOk result (λ n. n ≡ count_in self bytes.now) }
        ensures whole { IfOk result (HoldPoints self bytes.now) }
        ensures refused { IfErr result (λ cause. multi_point_at self bytes.now ≡
            refused bytes.now cause) }
    {
        let count = self.count(bytes)?;
        let start = self.header_length() + COUNT_SIZE;
        let member = MEMBER_HEADER_SIZE + self.dimension.coordinate_size();
        let end = start as u64 + member as u64 * count as u64;
        if (bytes.len() as u64) < end {
            return Err(Cause::General(General::ShortMultiPoint {
                end,
                len: bytes.len(),
            }));
        }
        Ok(count)
    }
}
