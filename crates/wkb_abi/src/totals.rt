//! How many coordinates, rings and singles geometries have: where the levels of a row end.

ghost use Rattle.std.specs.Prelude.{◌≡◌, ◌+◌, ◌<◌, ◌&&◌, nat_lt, IfSome, is_some};
ghost use Rattle.wkb_geom.specs.declared.code.TheConstants.{POLYGON};
ghost use Rattle.wkb_check.specs.Known.{HasGeometry};
ghost use Rattle.wkb_check.specs.Pieces.{IsPieceAt};
ghost use Rattle.wkb_check.specs.Public.{DescribesFront};
ghost use Rattle.wkb_check.specs.Subjects.{subjects};
ghost use Rattle.wkb_abi.specs.Coordinates.{totals_after};
ghost use Rattle.wkb_abi.specs.PieceLevels.{totals_plus, totals_with, ring_number, single_number, AreTotalsOf};

use wkb_check::{Piece, Pieces, RING, Summary};
use wkb_geom::code::{GEOMETRY_COLLECTION, MULTI_POINT, MULTI_POLYGON, POLYGON};

/// How many coordinates, rings and singles some rows have.
#[repr(C)]
#[derive(Clone, Copy, Debug, PartialEq)]
pub struct Totals {
    pub coordinates: u64,
    pub rings: u64,
    /// Points, line strings and polygons, by themselves or inside others.
    pub singles: u64,
}

/// Whether a piece is a point, a line string or a polygon.
#[inline(always)]
pub fn is_single(piece: &Piece) -> bool
    ensures { result ≡ (nat_lt 0 piece.now.kind && nat_lt piece.now.kind 4) }
{
    RING < piece.kind && piece.kind <= POLYGON
}

/// How many rings a geometry has that is no collection, by its first piece and how many parts it has. All parts of a
/// multi polygon but itself and its polygons are rings.
#[inline(always)]
fn rings_by_kind(first: &Piece, parts: u64) -> u64
    ensures { result ≡ ring_number first.now parts }
{
    let count = first.count as u64;
    if first.has_coordinates() {
        1
    } else if first.kind < MULTI_POLYGON {
        count
    } else {
        parts.saturating_sub(1 + count)
    }
}

/// How many singles it has.
#[inline(always)]
fn singles_by_kind(first: &Piece) -> u64
    ensures { result ≡ single_number first.now }
{
    if first.kind < MULTI_POINT {
        1
    } else {
        first.count as u64
    }
}

impl Totals {
    /// The totals after one more piece. A total that doesn't fit stays at the greatest `u64`.
    #[inline(always)]
    pub fn with(self, piece: &Piece) -> Totals
        ensures { result ≡ totals_with self piece.now }
    {
        let ring = piece.has_coordinates();
        let coordinates = if ring { piece.count as u64 } else { 0 };
        Totals {
            coordinates: self.coordinates.saturating_add(coordinates),
            rings: self.rings.saturating_add(u64::from(ring)),
            singles: self.singles.saturating_add(u64::from(is_single(piece))),
        }
    }

    /// The sum of two totals. A sum that doesn't fit is the greatest `u64`.
    #[inline(always)]
    fn and(self, own: Totals) -> Totals
        ensures { result ≡ totals_plus self own.coordinates own.rings own.singles }
    {
        Totals {
            coordinates: self.coordinates.saturating_add(own.coordinates),
            rings: self.rings.saturating_add(own.rings),
            singles: self.singles.saturating_add(own.singles),
        }
    }

    /// The totals of a geometry that is no collection, by what the check found of it and its first piece.
    #[inline(always)]
    fn of_plain(found: &Summary, first: &Piece) -> Option<Totals>
        ensures some { is_some result ≡ nat_lt first.now.kind GEOMETRY_COLLECTION }
        ensures totals { IfSome result (AreTotalsOf found.now first.now) }
    {
        if first.kind >= GEOMETRY_COLLECTION {
            return None;
        }
        Some(Totals {
            coordinates: found.coordinates as u64,
            rings: rings_by_kind(first, found.parts as u64),
            singles: singles_by_kind(first),
        })
    }

    /// Where the levels of a row end that begin here, by what the check found of it and its first piece. Only a
    /// collection is walked.
    #[inline(always)]
    pub fn after(self, row: &[u8], found: &Summary, first: &Piece) -> Totals
        requires found { DescribesFront row.now found.now }
        requires first { IsPieceAt row.now 0 first.now }
        ensures { (g : HasGeometry row.now) →
            result ≡ totals_after self (subjects g.spelled g.value) }
    {
        match Totals::of_plain(found, first) {
            Some(own) => self.and(own),
            None => self.after_walk(row, first),
        }
    }

    /// The totals after a geometry, by a walk from its first piece on.
    #[inline(never)]
    fn after_walk(self, row: &[u8], first: &Piece) -> Totals
        requires here { HasGeometry row.now }
        requires first { IsPieceAt row.now 0 first.now }
        ensures { (g : HasGeometry row.now) →
            result ≡ totals_after self (subjects g.spelled g.value) }
    {
        let mut to = self.with(first);
        let mut pieces = Pieces::behind(row, first);
        while let Some(piece) = pieces.next() {
            to = to.with(&piece);
        }
        to
    }
}
