//! The words of one piece, in the piece's byte order.

ghost use Rattle.std.specs.Prelude.{◌≡◌, ◌≤◌, ℕ, List, length};
ghost use Rattle.wkb_geom.specs.Numbers.{all_nan};
ghost use Rattle.wkb_check.specs.Pieces.{own_end};
ghost use Rattle.wkb_rewrite.specs.Shares.{Holds, TellsSameWords, own_words, is_empty_point};

use wkb_check::Piece;
use wkb_geom::Endianness;
use wkb_geom::code::POINT;
use wkb_geom::words::{WORD_SIZE, is_nan, u64_at};

/// The bytes of a piece's own words.
#[tactic(auto, using(crate::proofs::Held::own_held))]
#[inline(always)]
pub fn own_bytes<'a>(buf: &'a [u8], piece: &Piece) -> &'a [u8]
    requires { own_end piece.now ≤ length buf.now }
    ensures { Holds piece.now.order (own_words buf.now piece.now) result.now }
{
    &buf[piece.offset..piece.end()]
}

/// Whether bytes hold no words but NaNs.
#[inline(always)]
#[tactic(auto, using(crate::proofs::Held::word_next, crate::proofs::Held::no_word_next))]
fn hold_no_number(bytes: &[u8], order: Endianness) -> bool
    ensures { (words : List ℕ) → Holds order words bytes.now → result ≡ all_nan words }
{
    for i in 0..bytes.len() / WORD_SIZE {
        if !is_nan(u64_at(bytes, WORD_SIZE * i, order)) {
            return false;
        }
    }
    true
}

/// Whether a piece is an empty point.
#[inline(always)]
pub fn is_empty_point(buf: &[u8], piece: &Piece) -> bool
    requires { own_end piece.now ≤ length buf.now }
    ensures { result ≡ is_empty_point buf.now piece.now }
{
    piece.kind == POINT && hold_no_number(own_bytes(buf, piece), piece.order)
}

/// Whether bytes hold the same words in these orders.
#[inline(always)]
#[tactic(auto, using(crate::proofs::Held::same_laws))]
pub fn hold_same_words(a: &[u8], a_order: Endianness, b: &[u8], b_order: Endianness) -> bool
    requires { length a.now ≡ length b.now }
    ensures { TellsSameWords result a_order a.now b_order b.now }
{
    if a_order == b_order {
        return a == b;
    }
    for i in 0..a.len() / WORD_SIZE {
        if u64_at(a, WORD_SIZE * i, a_order) != u64_at(b, WORD_SIZE * i, b_order) {
            return false;
        }
    }
    true
}
