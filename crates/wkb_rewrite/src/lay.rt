//! Pieces and their numbers, laid into a slice.

ghost use Rattle.std.specs.Prelude.{◌≡◌, ◌≤◌, ◌+◌, ◌*◌, ℕ, length};
ghost use Rattle.wkb_geom.specs.declared.words.TheConstants.{COUNT_SIZE, WORD_SIZE};
ghost use Rattle.wkb_geom.specs.Encodings.{srid_encoding};
ghost use Rattle.wkb_geom.specs.Numbers.{number_bytes};
ghost use Rattle.wkb_check.specs.Pieces.{own_end};
ghost use Rattle.wkb_sink.specs.Options.{header_of};
ghost use Rattle.wkb_sink.specs.Runs.{Turns, empty_encoding, other};
ghost use Rattle.wkb_rewrite.specs.Shares.{HasRoomAt, IsLaidAt, count_part};
ghost use Rattle.wkb_rewrite.specs.Shares.{piece_header, words_part, piece_encoding};

use crate::own::{is_empty_point, own_bytes};
use wkb_check::{Piece, RING};
use wkb_geom::code::{POINT, WkbType, of_kind};
use wkb_geom::words::{COUNT_SIZE, WORD_SIZE};
use wkb_geom::{Dimension, Endianness};
use wkb_sink::block::{code_and_srid, lay_empty};
use wkb_sink::{WriteOptions, store_words, u32_bytes};

/// Lays a number of four bytes, and returns the index after it.
#[inline(always)]
#[tactic(auto, using(crate::proofs::Laying::lay_laws))]
fn lay_number(n: u32, order: Endianness, out: &mut [u8], at: usize) -> usize
    requires { HasRoomAt out.old at (number_bytes order COUNT_SIZE n) }
    ensures { IsLaidAt out.old out.new at result (number_bytes order COUNT_SIZE n) }
{
    let end = at + COUNT_SIZE;
    out[at..end].copy_from_slice(&u32_bytes(order, n));
    end
}

/// Lays an SRID where there is one, and returns the index after it.
#[inline(always)]
#[tactic(auto, using(crate::proofs::Laying::lay_laws), unfolding(wkb_geom::specs::Encodings::srid_encoding))]
fn lay_srid(srid: Option<u32>, order: Endianness, out: &mut [u8], at: usize) -> usize
    requires { HasRoomAt out.old at (srid_encoding order srid) }
    ensures { IsLaidAt out.old out.new at result (srid_encoding order srid) }
{
    match srid {
        Some(srid) => lay_number(srid, order, out, at),
        None => at,
    }
}

/// Lays the header of a geometry of this type, and returns the index after it.
#[inline(always)]
#[tactic(auto, using(crate::proofs::Laying::lay_laws), unfolding(wkb_geom::specs::Encodings::header_encoding))]
pub fn lay_type_header(wkb_type: WkbType, options: WriteOptions, out: &mut [u8], at: usize) -> usize
    requires { HasRoomAt out.old at (header_of options wkb_type) }
    ensures { IsLaidAt out.old out.new at result (header_of options wkb_type) }
{
    let WriteOptions {
        endianness: order,
        form,
    } = options;
    let (code, srid) = code_and_srid(form, wkb_type);
    out[at] = order.byte();
    let end = lay_number(code, order, out, at + 1);
    lay_srid(srid, order, out, end)
}

/// Lays the header of a piece (a ring has none), and returns the index after it.
#[inline(always)]
fn lay_piece_header(piece: &Piece, options: WriteOptions, out: &mut [u8], at: usize) -> usize
    requires { HasRoomAt out.old at (piece_header options piece.now) }
    ensures { IsLaidAt out.old out.new at result (piece_header options piece.now) }
{
    if piece.kind == RING {
        return at;
    }
    lay_type_header(of_kind(piece.kind, piece.dimension), options, out, at)
}

/// Lays the count of a piece, and of a point nothing, and returns the index after it.
#[inline(always)]
#[tactic(auto, using(crate::proofs::Laying::lay_laws))]
fn lay_count_part(piece: &Piece, order: Endianness, out: &mut [u8], at: usize) -> usize
    requires { HasRoomAt out.old at (count_part order piece.now.kind piece.now.count) }
    ensures { IsLaidAt out.old out.new at result (count_part order piece.now.kind piece.now.count) }
{
    if piece.kind == POINT {
        return at;
    }
    lay_number(piece.count, order, out, at)
}

/// Stores the empty word in each place.
#[inline(always)]
#[tactic(auto, using(std::proofs::lemmas::List::take_all))]
fn store_empty(out: &mut [u8], order: Endianness)
    ensures { (n : ℕ) → length out.old ≡ WORD_SIZE * n → out.new ≡ empty_encoding order n }
{
    let words = out.len() / WORD_SIZE;
    lay_empty(out, 0, order, words);
}

/// Stores in an order the words that these bytes hold in the other one.
#[inline(always)]
fn store_turned(bytes: &[u8], order: Endianness, out: &mut [u8])
    requires { length bytes.now ≡ length out.old }
    ensures { Turns (other order) order bytes.now out.new }
{
    // In each arm both orders are constants, for which the call is compiled.
    match order {
        Endianness::BigEndian => {
            store_words(out, bytes, Endianness::LittleEndian, Endianness::BigEndian);
        }
        Endianness::LittleEndian => {
            store_words(out, bytes, Endianness::BigEndian, Endianness::LittleEndian);
        }
    }
}

/// Stores the words that are written of a piece.
#[inline(always)]
#[tactic(auto, using(crate::proofs::Held::stored_laws))]
fn store_written(buf: &[u8], piece: &Piece, order: Endianness, out: &mut [u8])
    requires inside { own_end piece.now ≤ length buf.now }
    requires room { length out.old ≡ length (words_part order buf.now piece.now) }
    ensures { out.new ≡ words_part order buf.now piece.now }
{
    let words = own_bytes(buf, piece);
    if is_empty_point(buf, piece) {
        store_empty(out, order);
    } else if piece.order == order {
        out.copy_from_slice(words);
    } else {
        store_turned(words, order, out);
    }
}

/// Lays the words of a piece, and returns the index after them.
#[inline(always)]
#[tactic(auto, using(crate::proofs::Laying::lay_laws, crate::proofs::Held::as_long))]
fn lay_words(buf: &[u8], piece: &Piece, order: Endianness, out: &mut [u8], at: usize) -> usize
    requires inside { own_end piece.now ≤ length buf.now }
    requires room { HasRoomAt out.old at (words_part order buf.now piece.now) }
    ensures { IsLaidAt out.old out.new at result (words_part order buf.now piece.now) }
{
    let end = at + own_bytes(buf, piece).len();
    store_written(buf, piece, order, &mut out[at..end]);
    end
}

/// `lay_words` compiled once per dimension: more code, and fewer instructions for a point.
#[inline(always)]
fn lay_words_by_dimension(
    buf: &[u8],
    piece: &Piece,
    order: Endianness,
    out: &mut [u8],
    at: usize,
) -> usize
    requires inside { own_end piece.now ≤ length buf.now }
    requires room { HasRoomAt out.old at (words_part order buf.now piece.now) }
    ensures { IsLaidAt out.old out.new at result (words_part order buf.now piece.now) }
{
    // In each arm the dimension is a constant, for which the call is compiled.
    match piece.dimension {
        Dimension::Xy => lay_words(buf, piece, order, out, at),
        Dimension::Xyz | Dimension::Xym => lay_words(buf, piece, order, out, at),
        Dimension::Xyzm => lay_words(buf, piece, order, out, at),
    }
}

/// Lays the encoding of a piece up to its rings or members, and returns the index after it.
#[inline(always)]
pub fn lay_piece(
    buf: &[u8],
    piece: &Piece,
    options: WriteOptions,
    out: &mut [u8],
    start: usize,
) -> usize
    requires inside { own_end piece.now ≤ length buf.now }
    requires room { HasRoomAt out.old start (piece_encoding options buf.now piece.now) }
    ensures { IsLaidAt out.old out.new start result (piece_encoding options buf.now piece.now) }
{
    let order = options.endianness;
    let count_at = lay_piece_header(piece, options, out, start);
    let words_at = lay_count_part(piece, order, out, count_at);
    if piece.kind != POINT {
        return lay_words(buf, piece, order, out, words_at);
    }
    lay_words_by_dimension(buf, piece, order, out, words_at)
}
