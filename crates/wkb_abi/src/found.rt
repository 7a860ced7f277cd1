//! What `wkb_check` reports of the geometry at the start of some bytes.

ghost use Rattle.wkb_check.specs.Public.{DescribesFront};
ghost use Rattle.wkb_abi.specs.Checks.{IsFound};

use crate::parts::width_number;
use wkb_check::{Piece, Summary};

/// The geometry at the start of some bytes.
#[repr(C)]
#[derive(Clone, Copy, Debug, PartialEq)]
pub struct Found {
    /// Its bytes; the bytes after them were not looked at.
    pub size: u64,
    /// Itself, and its rings and members at every level.
    pub parts: u64,
    /// How many coordinates these have; a point has one, an empty one of NaNs.
    pub coordinates: u64,
    /// Where its own coordinates, rings or members begin.
    pub offset: u64,
    /// The number of those coordinates, rings or members; 1 for a point.
    pub count: u64,
    /// Its own SRID, or 0.
    pub srid: u32,
    /// 1 if it has an SRID, else 0.
    pub has_srid: u32,
    /// The number of its kind, as in the codes.
    pub kind: u32,
    /// The number of its dimension, as the thousands of a code.
    pub dimension: u32,
    /// The words of a coordinate.
    pub width: u32,
    /// The byte of its order.
    pub order: u32,
}

/// The numbers of no geometry.
pub const NOTHING_FOUND: Found = Found {
    size: 0,
    parts: 0,
    coordinates: 0,
    offset: 0,
    count: 0,
    srid: 0,
    has_srid: 0,
    kind: 0,
    dimension: 0,
    width: 0,
    order: 0,
};

/// What the check found in these bytes, by its numbers.
#[inline(always)]
pub fn found_of(buf: &[u8], summary: &Summary) -> Found
    requires { DescribesFront buf.now summary.now }
    ensures { IsFound buf.now result }
{
    let piece = Piece::outermost(buf, summary);
    Found {
        size: summary.bytes as u64,
        parts: summary.parts as u64,
        coordinates: summary.coordinates as u64,
        offset: piece.offset as u64,
        count: piece.count as u64,
        srid: piece.srid.unwrap_or(0),
        has_srid: u32::from(piece.srid.is_some()),
        kind: piece.kind,
        dimension: piece.dimension.thousands(),
        width: width_number(piece.dimension),
        order: u32::from(u8::from(piece.order)),
    }
}
