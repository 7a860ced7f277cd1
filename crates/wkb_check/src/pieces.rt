//! The pieces of a geometry that is known to be there, in preorder: itself, and its rings and members at every level.

ghost use Rattle.std.specs.Prelude.{◌≡◌, ◌+◌, ◌≤◌, ◌<◌, ◌^◌, length, drop, IfSome, None, nat_lt};
ghost use Rattle.std.specs.Iterator.{at_most};
ghost use Rattle.wkb_geom.specs.Numbers.{number};
ghost use Rattle.wkb_geom.specs.Reading.{type_kind};
ghost use Rattle.wkb_check.specs.Known.{HasGeometry};
ghost use Rattle.wkb_check.specs.Pieces.{own_end, ring_piece, IsPieceAt, IsHeaderAt, HasAhead, HasAll, IsBehind};
ghost use Rattle.wkb_check.specs.Pieces.{Takes, TakesOrStays, Steps, AreRings, IsBareNext, IsRing, IsOnlyMember};
ghost use Rattle.wkb_check.specs.Pieces.{bytes_left};
ghost use Rattle.wkb_check.specs.Public.{DescribesFront};

use crate::answer::Summary;
use crate::head::size_of_srid;
use wkb_geom::code::{GEOMETRY_COLLECTION, POINT, POLYGON};
use wkb_geom::header::MEMBER_HEADER_SIZE;
use wkb_geom::words::{COUNT_SIZE, rest_from, u32_at};
use wkb_geom::{Dimension, Endianness, Head};

/// The number of a ring among the kinds.
pub const RING: u32 = 0;

/// A geometry up to its rings or members, or a ring of a polygon.
#[derive(Clone, Copy)]
pub struct Piece {
    /// The number of its kind, as in the codes; 0 is a ring.
    pub kind: u32,
    pub dimension: Dimension,
    /// The order of its words; a ring has its polygon's.
    pub order: Endianness,
    /// Its own SRID.
    pub srid: Option<u32>,
    /// How many coordinates, rings or members it has.
    pub count: u32,
    /// Its first byte, counted from the start of the bytes.
    pub begin: usize,
    /// Where its coordinates, rings or members begin.
    pub offset: usize,
}

impl Piece {
    /// Whether it has coordinates, and no rings or members.
    #[inline(always)]
    pub fn has_coordinates(&self) -> bool
        ensures { result ≡ nat_lt self.now.kind POLYGON }
    {
        self.kind < POLYGON
    }

    /// Where its own coordinates end; or where its rings or members begin.
    #[inline(always)]
    pub fn end(&self) -> usize
        requires { own_end self.now < 2 ^ 63 }
        ensures { result ≡ own_end self.now }
    {
        if self.has_coordinates() {
            self.offset + self.dimension.coordinate_size() * self.count as usize
        } else {
            self.offset
        }
    }

    /// The geometry that begins at this byte and has this header, up to its rings or members.
    #[inline(always)]
    pub fn of_header(
        bytes: &[u8],
        begin: usize,
        kind: u32,
        dimension: Dimension,
        order: Endianness,
        srid: Option<u32>,
    ) -> Piece
        requires here { HasGeometry (drop begin bytes.now) }
        requires header { IsHeaderAt bytes.now begin kind dimension order srid }
        ensures { IsPieceAt bytes.now begin result }
    {
        let body = begin + MEMBER_HEADER_SIZE + size_of_srid(srid);
        let (count, offset) = if kind == POINT {
            (1, body)
        } else {
            (u32_at(bytes, body, order), body + COUNT_SIZE)
        };
        Piece {
            kind,
            dimension,
            order,
            srid,
            count,
            begin,
            offset,
        }
    }

    /// The geometry that begins at this byte, up to its rings or members.
    #[inline(always)]
    pub fn of_geometry(bytes: &[u8], begin: usize) -> Piece
        requires here { HasGeometry (drop begin bytes.now) }
        ensures { IsPieceAt bytes.now begin result }
    {
        let from = rest_from(bytes, begin);
        let header = match Head::read(from) {
            Ok(header) => header,
            Err(_) => unreachable!(),
        };
        let kind = header.wkb_type.kind();
        let layout = header.layout();
        let srid = layout.srid(from);
        Piece::of_header(bytes, begin, kind, layout.dimension, layout.order, srid)
    }

    /// The geometry at the start of the bytes in which the check found this, up to its rings or members.
    #[inline(always)]
    pub fn outermost(bytes: &[u8], found: &Summary) -> Piece
        requires { DescribesFront bytes.now found.now }
        ensures { IsPieceAt bytes.now 0 result }
    {
        let kind = found.wkb_type.kind();
        let dimension = found.wkb_type.dimension();
        Piece::of_header(bytes, 0, kind, dimension, found.order, found.srid)
    }

    /// As `outermost`, of a polygon: if it is inlined, the kind is a constant.
    #[inline(always)]
    pub fn polygon(bytes: &[u8], found: &Summary) -> Piece
        requires here { DescribesFront bytes.now found.now }
        requires polygon { type_kind found.now.wkb_type ≡ POLYGON }
        ensures { IsPieceAt bytes.now 0 result }
    {
        let dimension = found.wkb_type.dimension();
        Piece::of_header(bytes, 0, POLYGON, dimension, found.order, found.srid)
    }

    /// The bytes from its member on, if it begins a geometry at the start of the bytes that has one member and no more.
    #[inline(always)]
    pub fn only_member<'a>(&self, bytes: &'a [u8]) -> Option<&'a [u8]>
        requires here { HasGeometry bytes.now }
        requires first { IsPieceAt bytes.now 0 self.now }
        ensures { IfSome result (λ member. IsOnlyMember bytes.now member.now) }
    {
        if self.kind <= POLYGON || self.count != 1 {
            return None;
        }
        Some(rest_from(bytes, self.offset))
    }

    /// The ring that begins at this byte, of a polygon of this order and dimension.
    #[inline(always)]
    pub fn of_ring(bytes: &[u8], begin: usize, order: Endianness, dimension: Dimension) -> Piece
        requires { begin + COUNT_SIZE ≤ length bytes.now }
        ensures { result ≡ ring_piece order dimension begin
            (number order 4 (drop begin bytes.now)) }
    {
        Piece {
            kind: RING,
            dimension,
            order,
            srid: None,
            count: u32_at(bytes, begin, order),
            begin,
            offset: begin + COUNT_SIZE,
        }
    }
}

/// The pieces that are still to come.
#[derive(Drop)]
pub struct Pieces<'a> {
    bytes: &'a [u8],
    /// Where the next one begins.
    at: usize,
    /// How many rings of the polygon before them are to come.
    rings: u32,
    /// How many geometries follow those rings, not counting what is inside them.
    geometries: usize,
    /// Byte order and dimension of the polygon whose rings are next.
    order: Endianness,
    dimension: Dimension,
}

impl<'a> Pieces<'a> {
    /// All pieces of the geometry at the start of the bytes.
    #[inline(always)]
    pub fn of(bytes: &'a [u8]) -> Pieces<'a>
        requires here { HasGeometry bytes.now }
        ensures { HasAll bytes.now result }
    {
        Pieces {
            bytes,
            at: 0,
            rings: 0,
            geometries: 1,
            order: Endianness::LittleEndian,
            dimension: Dimension::Xy,
        }
    }

    /// All pieces but the first one of the geometry at the start of the bytes.
    #[inline(always)]
    pub fn behind(bytes: &'a [u8], first: &Piece) -> Pieces<'a>
        requires here { HasGeometry bytes.now }
        requires first { IsPieceAt bytes.now 0 first.now }
        ensures { IsBehind bytes.now first.now result }
    {
        let mut pieces = Pieces::of(bytes);
        pieces.pass_geometry(first);
        pieces
    }

    /// The next piece, which is a ring.
    #[tactic(auto, using(crate::proofs::Following::ring_laws))]
    #[inline(always)]
    fn next_ring(&mut self) -> Piece
        requires ahead { HasAhead self.old }
        requires some { 0 < self.old.rings }
        ensures takes { Takes self.old self.new result }
        ensures ring { IsRing self.old.order self.old.dimension result }
        ensures rings { self.old.geometries ≡ 0
            → AreRings self.old.order self.old.dimension self.new }
    {
        let piece = Piece::of_ring(self.bytes, self.at, self.order, self.dimension);
        self.rings -= 1;
        self.at = piece.end();
        piece
    }

    /// Passes the geometry that comes next, up to its rings or members.
    #[tactic(auto, using(crate::proofs::Following::piece_laws))]
    #[inline(always)]
    fn pass_geometry(&mut self, piece: &Piece)
        requires ahead { HasAhead self.old }
        requires no_ring { self.old.rings ≡ 0 }
        requires some { 0 < self.old.geometries }
        requires piece { IsPieceAt self.old.bytes.now self.old.at piece.now }
        ensures takes { Takes self.old self.new piece.now }
        ensures rings { piece.now.kind ≡ POLYGON → self.old.geometries ≡ 1
            → AreRings piece.now.order piece.now.dimension self.new }
    {
        self.geometries -= 1;
        self.at = piece.end();
        if piece.kind == POLYGON {
            self.rings = piece.count;
            self.order = piece.order;
            self.dimension = piece.dimension;
        } else if piece.kind > POLYGON {
            self.geometries += piece.count as usize;
        }
    }

    /// The next piece, if it is a ring. Where no geometry follows the rings, it is the one that `next` returns.
    #[inline(always)]
    pub fn next_if_ring(&mut self) -> Option<Piece>
        requires { HasAhead self.old }
        ensures taken { TakesOrStays self.old result self.new }
        ensures ring { IfSome result (IsRing self.old.order self.old.dimension) }
        ensures steps { self.old.geometries ≡ 0 → Steps self.old result self.new }
        ensures rings { self.old.geometries ≡ 0
            → AreRings self.old.order self.old.dimension self.new }
    {
        if self.rings > 0 {
            Some(self.next_ring())
        } else {
            None
        }
    }

    /// The next piece, which is a geometry.
    #[inline(always)]
    fn next_geometry(&mut self) -> Piece
        requires ahead { HasAhead self.old }
        requires no_ring { self.old.rings ≡ 0 }
        requires some { 0 < self.old.geometries }
        ensures { Takes self.old self.new result }
    {
        let piece = Piece::of_geometry(self.bytes, self.at);
        self.pass_geometry(&piece);
        piece
    }

    /// The next piece, if it is a geometry in this order whose code is the number of its kind and nothing else. `next`
    /// takes it, too: this way is short where the order is a constant.
    #[inline(always)]
    pub fn next_bare(&mut self, order: Endianness) -> Option<Piece>
        requires ahead { HasAhead self.old }
        ensures taken { TakesOrStays self.old result self.new }
        ensures none { result ≡ None → IsBareNext order self.old → ⊥ }
    {
        self.next_bare_to(order, GEOMETRY_COLLECTION)
    }

    /// As `next_bare`, if it is a point: then the kind is a constant, too.
    #[inline(always)]
    pub fn next_if_point(&mut self, order: Endianness) -> Option<Piece>
        requires { HasAhead self.old }
        ensures { TakesOrStays self.old result self.new }
    {
        self.next_bare_to(order, POINT)
    }

    /// As `next_bare`, if its kind has no greater number than the last.
    #[tactic(auto, using(crate::proofs::Placing::onward))]
    #[inline(always)]
    fn next_bare_to(&mut self, order: Endianness, last: u32) -> Option<Piece>
        requires ahead { HasAhead self.old }
        requires last { last ≤ GEOMETRY_COLLECTION }
        ensures taken { TakesOrStays self.old result self.new }
        ensures none { last ≡ GEOMETRY_COLLECTION → result ≡ None → IsBareNext order self.old → ⊥ }
    {
        if self.rings > 0 || self.geometries == 0 {
            return None;
        }
        let here = rest_from(self.bytes, self.at);
        let kind = u32_at(here, 1, order);
        if here[0] != order.byte() || kind < POINT || last < kind {
            return None;
        }
        let piece = Piece::of_header(self.bytes, self.at, kind, Dimension::Xy, order, None);
        self.pass_geometry(&piece);
        Some(piece)
    }
}

impl<'a> Iterator for Pieces<'a> {
    type Item = Piece;

    ghost can_next = { HasAhead };

    ghost next_gives = { Steps };

    ghost remaining = { λ w. at_most (bytes_left w) };

    #[tactic(auto, using(crate::proofs::Placing::onward))]
    #[inline(always)]
    fn next(&mut self) -> Option<Piece> {
        if self.rings > 0 {
            Some(self.next_ring())
        } else if self.geometries > 0 {
            Some(self.next_geometry())
        } else {
            None
        }
    }
}
