//! The pieces of any bytes, one after another, each up to its rings or members: also those before a fault.

ghost use Rattle.std.specs.Prelude.{◌≡◌, ◌≤◌, length, Some, None, IfSome, IfNone, nat_le};
ghost use Rattle.wkb_check.specs.Begun.{next_piece, held_in, behind};
ghost use Rattle.wkb_check.specs.Pieces.{own_end};

use crate::pieces::Piece;
use wkb_geom::code::{POINT, POLYGON};
use wkb_geom::words::{COUNT_SIZE, rest_from, u32_at};
use wkb_geom::{Dimension, Endianness, Head};

/// Where the next piece begins, and what it is. The first one begins at byte 0, and no ring comes before it.
#[derive(Clone, Copy)]
pub struct NextPiece {
    /// Its first byte.
    pub at: usize,
    /// How many rings of the polygon before it are to come. If it is 0, the next piece is a geometry.
    pub rings: u32,
    /// Byte order and dimension of that polygon.
    pub order: Endianness,
    pub dimension: Dimension,
}

impl Piece {
    /// Whether its own bytes, which begin before this offset, end inside these.
    fn is_held(&self, bytes: &[u8]) -> bool
        requires { self.now.offset ≤ length bytes.now }
        ensures { result ≡ nat_le (own_end self.now) (length bytes.now) }
    {
        let own = if self.has_coordinates() {
            self.dimension.coordinate_size() as u64 * self.count as u64
        } else {
            0
        };
        own <= (bytes.len() - self.offset) as u64
    }
}

impl NextPiece {
    /// The next piece, if it is there up to its own coordinates, rings or members.
    fn headed(&self, bytes: &[u8]) -> Option<Piece>
        requires { self.now.at ≤ length bytes.now }
        ensures some { IfSome result (λ p. next_piece bytes.now self.now ≡ Some p) }
        ensures inside { IfSome result (λ p. p.offset ≤ length bytes.now) }
        ensures none { IfNone result (held_in bytes.now (next_piece bytes.now self.now) ≡ None) }
    {
        let from = rest_from(bytes, self.at);
        if self.rings > 0 {
            if from.len() < COUNT_SIZE {
                return None;
            }
            return Some(Piece::of_ring(bytes, self.at, self.order, self.dimension));
        }
        let Ok(header) = Head::read(from) else {
            return None;
        };
        let (kind, layout) = (header.wkb_type.kind(), header.layout());
        let start = layout.header_length();
        let own = if kind == POINT { 0 } else { COUNT_SIZE };
        if from.len() < start + own {
            return None;
        }
        Some(Piece {
            kind,
            dimension: layout.dimension,
            order: header.order,
            srid: layout.srid(from),
            count: if kind == POINT {
                1
            } else {
                u32_at(from, start, header.order)
            },
            begin: self.at,
            offset: self.at + start + own,
        })
    }

    /// Takes the next piece, if it is there up to its rings or members.
    pub fn take(&mut self, bytes: &[u8]) -> Option<Piece>
        requires inside { self.old.at ≤ length bytes.now }
        ensures taken { result ≡ held_in bytes.now (next_piece bytes.now self.old) }
        ensures moved { self.new ≡ behind self.old result }
        ensures inside { self.new.at ≤ length bytes.now }
    {
        let piece = match self.headed(bytes) {
            Some(piece) => piece,
            None => return None,
        };
        if !piece.is_held(bytes) {
            return None;
        }
        self.at = piece.end();
        if piece.kind == POLYGON {
            self.rings = piece.count;
            self.order = piece.order;
            self.dimension = piece.dimension;
        } else {
            self.rings = self.rings.saturating_sub(1);
        }
        Some(piece)
    }
}
