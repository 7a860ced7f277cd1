//! The table of a geometry's parts.

ghost use Rattle.std.specs.Prelude.{◌≡◌, ◌+◌, ◌<◌, ◌≤◌, length, drop};
ghost use Rattle.wkb_geom.specs.Dimensions.{width};
ghost use Rattle.wkb_abi.specs.Tables.{entry_of, EndsPart, HasRingsFrom, LaysRings, FitGeometries, LaysFrom};

use wkb_check::Piece;
use wkb_geom::Dimension;
use wkb_geom::code::POLYGON;

/// A geometry, or a ring of a polygon. The struct has no padding.
#[repr(C)]
#[derive(Clone, Copy)]
pub struct Part {
    pub begin: u64,
    pub end: u64,
    pub offset: u64,
    pub count: u64,
    pub next: u64,
    pub srid: u32,
    pub has_srid: u32,
    pub kind: u32,
    pub dimension: u32,
    pub width: u32,
    pub order: u32,
}

/// How many words a coordinate has.
#[tactic(auto, using(crate::proofs::Entries::width_is_small))]
pub fn width_number(dimension: Dimension) -> u32
    ensures { result ≡ width dimension }
{
    dimension.width() as u32
}

impl Part {
    /// The table entry of `piece`: `end` is its last byte plus one, `next` the index after its rings and members.
    #[inline(always)]
    pub fn of(piece: &Piece, end: usize, next: usize) -> Part
        ensures { result ≡ entry_of piece.now end next }
    {
        Part {
            begin: piece.begin as u64,
            end: end as u64,
            offset: piece.offset as u64,
            count: piece.count as u64,
            next: next as u64,
            srid: piece.srid.unwrap_or(0),
            has_srid: u32::from(piece.srid.is_some()),
            kind: piece.kind,
            dimension: piece.dimension.thousands(),
            width: width_number(piece.dimension),
            order: u32::from(u8::from(piece.order)),
        }
    }
}

/// An index of a table, and the byte at which the part there begins.
#[derive(Clone, Copy)]
pub struct PartPlace {
    pub index: usize,
    pub byte: usize,
}

/// Lays the entries of the rings of a polygon from this place on, and returns the place after them.
pub fn lay_rings(buf: &[u8], polygon: &Piece, parts: &mut [Part], start: PartPlace) -> PartPlace
    requires whole { HasRingsFrom buf.now polygon.now start.byte }
    requires room { start.index + polygon.now.count ≤ length parts.old }
    ensures { LaysRings buf.now polygon.now parts.old parts.new start result }
{
    let mut at = start;
    for _ in 0..polygon.count {
        let ring = Piece::of_ring(buf, at.byte, polygon.order, polygon.dimension);
        let next = PartPlace {
            index: at.index + 1,
            byte: ring.end(),
        };
        parts[at.index] = Part::of(&ring, next.byte, next.index);
        at = next;
    }
    at
}

/// Moves the end of a part that is laid to this place, which is the one after its rings or members.
#[inline(always)]
fn end_part(parts: &mut [Part], index: usize, after: PartPlace)
    requires { index < length parts.old }
    ensures { EndsPart parts.old parts.new index after }
{
    parts[index].end = after.byte as u64;
    parts[index].next = after.index as u64;
}

/// Lays the entries of `count` geometries one after another from this place on, and returns the place after them.
///
/// Each is laid before what is inside it, so that a turn of the recursion keeps nothing of it on the stack.
#[cycle(table)]
pub fn lay_geometries(buf: &[u8], count: u32, parts: &mut [Part], start: PartPlace) -> PartPlace
    requires fit { FitGeometries count (drop start.byte buf.now) start.index (length parts.old) }
    ensures { LaysFrom buf.now count parts.old parts.new start result }
{
    let mut at = start;
    for _ in 0..count {
        let piece = Piece::of_geometry(buf, at.byte);
        let inside = PartPlace {
            index: at.index + 1,
            byte: piece.end(),
        };
        parts[at.index] = Part::of(&piece, inside.byte, inside.index);
        let next = if piece.has_coordinates() {
            inside
        } else if piece.kind == POLYGON {
            lay_rings(buf, &piece, parts, inside)
        } else {
            lay_geometries(buf, piece.count, parts, inside)
        };
        end_part(parts, at.index, next);
        at = next;
    }
    at
}
