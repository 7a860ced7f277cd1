//! The codes of geometries.

ghost use Rattle.std.specs.Prelude.{◌≡◌, ◌==◌, ◌||◌, ℕ, Bool, option_map};
ghost use Rattle.wkb_geom.specs.declared.common.Dimension.{Dimension};
ghost use Rattle.wkb_geom.specs.Dimensions.{has_z, has_m};
ghost use Rattle.wkb_geom.specs.Codes.{Code, flag, iso_code, ewkb_code};
ghost use Rattle.wkb_geom.specs.Reading.{type_of, type_kind, type_dimension, meaning, meaning_of};
ghost use Rattle.wkb_geom.specs.Reading.{without, in_table, dimension_with};
ghost use Rattle.wkb_geom.specs.Meanings.{HasType, has_srid_flag};

use crate::common::Dimension;
use crate::error::{General, WkbError, WkbResult};
use std::marker::Model;

/// The flag of a z, of EWKB.
const Z_FLAG: u32 = 0x8000_0000;

/// The flag of an m.
const M_FLAG: u32 = 0x4000_0000;

/// The flag of an SRID.
pub const SRID_FLAG: u32 = 0x2000_0000;

/// The number of a point's kind.
pub const POINT: u32 = 1;

/// The number of a line string's kind.
pub const LINE_STRING: u32 = 2;

/// The number of a polygon's kind.
pub const POLYGON: u32 = 3;

/// The number of a multi point's kind.
pub const MULTI_POINT: u32 = 4;

/// The number of a multi line string's kind.
pub const MULTI_LINE_STRING: u32 = 5;

/// The number of a multi polygon's kind.
pub const MULTI_POLYGON: u32 = 6;

/// The number of a collection's kind.
pub const GEOMETRY_COLLECTION: u32 = 7;

/// A kind with its dimension.
#[derive(Clone, Copy, Debug, PartialEq)]
pub enum WkbType {
    /// A point.
    Point(Dimension),
    /// A line string.
    LineString(Dimension),
    /// A polygon.
    Polygon(Dimension),
    /// A multi point.
    MultiPoint(Dimension),
    /// A multi line string.
    MultiLineString(Dimension),
    /// A multi polygon.
    MultiPolygon(Dimension),
    /// A collection.
    GeometryCollection(Dimension),
}

/// A code as it was read, flags included.
#[derive(Clone, Copy, Debug, PartialEq)]
pub struct WkbGeometryCode {
    code: u32,
}

impl Model for WkbGeometryCode {
    ghost Value = { ℕ };

    ghost view = { λ c. c.code };

    ghost inverse = { λ n. record { code = n } };
}

/// The dimension that has a z or an m where a flag or the thousands say so.
fn dimension_with_flags(z: bool, m: bool, iso: Dimension) -> Dimension
    ensures { result ≡ dimension_with (z || has_z iso) (m || has_m iso) }
{
    // Most codes have no flag.
    if !z && !m {
        return iso;
    }
    match (z || iso.has_z(), m || iso.has_m()) {
        (false, false) => Dimension::Xy,
        (true, false) => Dimension::Xyz,
        (false, true) => Dimension::Xym,
        (true, true) => Dimension::Xyzm,
    }
}

/// Whether a code without flags is in the table.
fn is_in_table(n: u32) -> bool
    ensures { result ≡ in_table n }
{
    n / 1000 < 4 && (0 < n % 1000 && n % 1000 < 8)
}

/// The kind of this number.
pub fn of_kind(kind: u32, dimension: Dimension) -> WkbType
    ensures { result ≡ type_of kind dimension }
{
    match kind {
        POINT => WkbType::Point(dimension),
        LINE_STRING => WkbType::LineString(dimension),
        POLYGON => WkbType::Polygon(dimension),
        MULTI_POINT => WkbType::MultiPoint(dimension),
        MULTI_LINE_STRING => WkbType::MultiLineString(dimension),
        MULTI_POLYGON => WkbType::MultiPolygon(dimension),
        _ => WkbType::GeometryCollection(dimension),
    }
}

/// `code` with `flag` cleared, provided no higher flag is set.
fn without_flag(code: u32, flag: u32) -> u32
    ensures { result ≡ without code flag }
{
    if flag <= code { code - flag } else { code }
}

impl WkbGeometryCode {
    /// The code of these four bytes, in the table or not.
    pub fn new(code: u32) -> Self
        ensures { result ≡ code }
    {
        WkbGeometryCode { code }
    }

    /// Whether an SRID follows.
    pub fn has_srid(&self) -> bool
        ensures flag { result ≡ has_srid_flag self.now }
        ensures meant { (k : ℕ) (d : Dimension) (srid : Bool) → Code self.now k d srid
            → result ≡ srid }
    {
        SRID_FLAG <= without_flag(without_flag(self.code, Z_FLAG), M_FLAG)
    }

    /// The kind and the dimension, by ISO codes and the flags of EWKB. `CodeOutOfRange` with the whole code if it is
    /// not in the table.
    pub fn get_type(&self) -> WkbResult<WkbType>
        ensures meant { HasType self.now result }
    {
        match self.known_type() {
            Some(wkb_type) => Ok(wkb_type),
            None => Err(WkbError::General(General::CodeOutOfRange(self.code))),
        }
    }

    /// The kind and the dimension, if the code is in the table.
    #[inline]
    pub(crate) fn known_type(&self) -> Option<WkbType>
        ensures { meaning_of self.now
            ≡ option_map (λ t. meaning t (has_srid_flag self.now)) result }
    {
        let z = Z_FLAG <= self.code;
        let a = without_flag(self.code, Z_FLAG);
        let m = M_FLAG <= a;
        let b = without_flag(a, M_FLAG);
        let n = without_flag(b, SRID_FLAG);
        if !is_in_table(n) {
            return None;
        }
        let iso = Dimension::of_thousands(n / 1000)?;
        Some(of_kind(n % 1000, dimension_with_flags(z, m, iso)))
    }
}

impl WkbType {
    /// The number of the kind, from 1 for a point to 7 for a collection.
    pub fn kind(self) -> u32
        ensures { result ≡ type_kind self }
    {
        match self {
            WkbType::Point(_) => POINT,
            WkbType::LineString(_) => LINE_STRING,
            WkbType::Polygon(_) => POLYGON,
            WkbType::MultiPoint(_) => MULTI_POINT,
            WkbType::MultiLineString(_) => MULTI_LINE_STRING,
            WkbType::MultiPolygon(_) => MULTI_POLYGON,
            WkbType::GeometryCollection(_) => GEOMETRY_COLLECTION,
        }
    }

    /// The dimension.
    pub fn dimension(self) -> Dimension
        ensures { result ≡ type_dimension self }
    {
        match self {
            WkbType::Point(dimension)
            | WkbType::LineString(dimension)
            | WkbType::Polygon(dimension)
            | WkbType::MultiPoint(dimension)
            | WkbType::MultiLineString(dimension)
            | WkbType::MultiPolygon(dimension)
            | WkbType::GeometryCollection(dimension) => dimension,
        }
    }

    /// Whether it is a point's.
    #[inline]
    pub(crate) fn is_point(self) -> bool
        ensures { result ≡ (type_kind self == 1) }
    {
        matches!(self, WkbType::Point(_))
    }

    /// The ISO code: the kind, and 1000 for z, 2000 for m, 3000 for both. So 1003 is a polygon of x, y and z.
    pub fn iso_code(self) -> u32
        ensures { result ≡ iso_code (type_kind self) (type_dimension self) }
    {
        1000 * self.dimension().thousands() + self.kind()
    }

    /// The code with the flags of EWKB.
    pub fn ewkb_code(self, srid: bool) -> u32
        ensures { result ≡ ewkb_code (type_kind self) (type_dimension self) srid }
    {
        let dimension = self.dimension();
        let z = if dimension.has_z() { Z_FLAG } else { 0 };
        let m = if dimension.has_m() { M_FLAG } else { 0 };
        let srid = if srid { SRID_FLAG } else { 0 };
        z + m + srid + self.kind()
    }
}

/// The ISO code.
impl From<WkbType> for u32 {
    ghost from_gives = { λ t c. c ≡ iso_code (type_kind t) (type_dimension t) };

    fn from(t: WkbType) -> u32 {
        t.iso_code()
    }
}
