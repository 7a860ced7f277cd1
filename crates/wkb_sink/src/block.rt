//! The parts of an encoding, laid in the bytes of a slice. Each is laid at a place, and returns where it ends.

ghost use Rattle.std.specs.Prelude.{◌≡◌, ◌+◌, ◌*◌, ◌≤◌, ◌∷◌, [], length};
ghost use Rattle.wkb_geom.specs.Dimensions.{written_dimension};
ghost use Rattle.wkb_geom.specs.Encodings.{code_of, form_srid, words_encoding};
ghost use Rattle.wkb_geom.specs.Numbers.{number_bytes};
ghost use Rattle.wkb_geom.specs.Reading.{type_kind, type_dimension};
ghost use Rattle.wkb_geom.specs.declared.words.TheConstants.{COUNT_SIZE};
ghost use Rattle.wkb_sink.specs.Blocks.{LaysAt};
ghost use Rattle.wkb_sink.specs.Options.{header_size, header_of};
ghost use Rattle.wkb_sink.specs.Runs.{FitsCoordinate, AreRunEnds, empty_encoding, run_size, run_encoding};
ghost use Rattle.wkb_sink.specs.declared.block.TheConstants.{CORNER_SIZE};

use crate::options::WriteOptions;
use crate::store::{store_coordinate, store_coordinates, store_word, u32_bytes};
use wkb_geom::code::WkbType;
use wkb_geom::header::MAX_HEADER_SIZE;
use wkb_geom::words::{COUNT_SIZE, WORD_SIZE};
use wkb_geom::{CoordTrait, Dimension, Dimensions, EMPTY_WORD, Endianness, Form, LineStringTrait};

/// The size of a corner: x and y.
pub const CORNER_SIZE: usize = 2 * WORD_SIZE;

/// The size of the longest coordinate, which has four words.
pub const MAX_COORDINATE_SIZE: usize = 4 * WORD_SIZE;

/// The least that a block before a sink holds: the most that is laid in one piece, which is a triangle.
pub const MIN_BLOCK: usize = MAX_HEADER_SIZE + 2 * COUNT_SIZE + 4 * MAX_COORDINATE_SIZE;

/// The dimension that is written; Xy where there is none.
#[inline]
pub fn dimension_to_write(dim: Dimensions) -> Dimension
    ensures { result ≡ written_dimension dim }
{
    Dimension::try_from(dim).unwrap_or(Dimension::Xy)
}

/// The code of a header, and the SRID after it. One match tells both, so that a header without an SRID takes one
/// branch.
#[inline]
#[tactic(auto, unfolding(wkb_geom::specs::Encodings::code_of))]
pub fn code_and_srid(form: Form, wkb_type: WkbType) -> (u32, Option<u32>)
    ensures code { result.0 ≡ code_of form (type_kind wkb_type) (type_dimension wkb_type) }
    ensures srid { result.1 ≡ form_srid form }
{
    match form {
        Form::Iso => (u32::from(wkb_type), None),
        Form::Ewkb { srid } => (wkb_type.ewkb_code(srid.is_some()), srid),
    }
}

/// Lays bytes as they are.
#[inline]
#[tactic(auto, using(crate::proofs::Stores::stored_at))]
pub fn lay(bytes: &mut [u8], at: usize, part: &[u8]) -> usize
    requires { at + length part.now ≤ length bytes.old }
    ensures { LaysAt at result bytes.old bytes.new part.now }
{
    let end = at + part.len();
    bytes[at..end].copy_from_slice(part);
    end
}

/// Lays a word in its eight bytes.
#[inline]
pub fn lay_word(bytes: &mut [u8], at: usize, order: Endianness, word: u64) -> usize
    requires { at + 8 ≤ length bytes.old }
    ensures end { result ≡ at + 8 }
    ensures bytes { LaysAt at result bytes.old bytes.new (number_bytes order 8 word) }
{
    store_word(&mut bytes[at..], order, word);
    at + WORD_SIZE
}

/// Lays a coordinate of two, three or four words.
#[inline(always)]
pub fn lay_coordinate<C: CoordTrait>(
    bytes: &mut [u8],
    at: usize,
    order: Endianness,
    coord: &C,
    words: usize,
) -> usize
    requires coordinate { FitsCoordinate (C.dimensions coord.now) words }
    requires room { at + 8 * words ≤ length bytes.old }
    ensures end { result ≡ at + 8 * words }
    ensures bytes { LaysAt at result bytes.old bytes.new
        (words_encoding order (C.words coord.now)) }
{
    store_coordinate(&mut bytes[at..], coord, words, order);
    at + WORD_SIZE * words
}

/// Lays a coordinate, as a real call: less code for shapes that lay several.
pub fn lay_vertex<C: CoordTrait>(
    bytes: &mut [u8],
    at: usize,
    order: Endianness,
    coord: &C,
    words: usize,
) -> usize
    requires coordinate { FitsCoordinate (C.dimensions coord.now) words }
    requires room { at + 8 * words ≤ length bytes.old }
    ensures end { result ≡ at + 8 * words }
    ensures bytes { LaysAt at result bytes.old bytes.new
        (words_encoding order (C.words coord.now)) }
{
    lay_coordinate(bytes, at, order, coord, words)
}

/// Lays the coordinates from an index up to another one.
#[inline]
pub fn lay_coordinates<L: LineStringTrait>(
    bytes: &mut [u8],
    at: usize,
    line: &L,
    from: usize,
    to: usize,
    order: Endianness,
) -> usize
    requires run { AreRunEnds (L.dimensions line.now) (L.coordinates line.now) from to }
    requires room { at + run_size (L.dimensions line.now) from to ≤ length bytes.old }
    ensures end { result ≡ at + run_size (L.dimensions line.now) from to }
    ensures bytes { LaysAt at result bytes.old bytes.new
        (run_encoding order (L.coordinates line.now) from to) }
{
    let rest = &mut bytes[at..];
    // In each arm the order is a constant, for which the call is compiled.
    let stored = match order {
        Endianness::BigEndian => store_coordinates(rest, line, from, to, Endianness::BigEndian),
        Endianness::LittleEndian => {
            store_coordinates(rest, line, from, to, Endianness::LittleEndian)
        }
    };
    at + stored
}

/// Lays a count, or an SRID.
#[inline]
pub fn lay_count(bytes: &mut [u8], at: usize, order: Endianness, n: u32) -> usize
    requires { at + COUNT_SIZE ≤ length bytes.old }
    ensures end { result ≡ at + COUNT_SIZE }
    ensures bytes { LaysAt at result bytes.old bytes.new (number_bytes order 4 n) }
{
    lay(bytes, at, &u32_bytes(order, n))
}

/// Lays the order's byte, the code, and the SRID where there is one.
#[inline(always)]
pub fn lay_header(bytes: &mut [u8], at: usize, options: &WriteOptions, wkb_type: WkbType) -> usize
    requires { at + header_size options.now.form ≤ length bytes.old }
    ensures end { result ≡ at + header_size options.now.form }
    ensures bytes { LaysAt at result bytes.old bytes.new (header_of options.now wkb_type) }
{
    let WriteOptions {
        endianness: order,
        form,
    } = *options;
    let at = lay(bytes, at, &[u8::from(order)]);
    let (code, srid) = code_and_srid(form, wkb_type);
    let at = lay_count(bytes, at, order, code);
    match srid {
        Some(srid) => lay_count(bytes, at, order, srid),
        None => at,
    }
}

/// Lays the words of a point without a coordinate.
#[inline(always)]
pub fn lay_empty(bytes: &mut [u8], at: usize, order: Endianness, words: usize) -> usize
    requires { at + 8 * words ≤ length bytes.old }
    ensures end { result ≡ at + 8 * words }
    ensures bytes { LaysAt at result bytes.old bytes.new (empty_encoding order words) }
{
    let mut end = at;
    for _i in 0..words {
        end = lay_word(bytes, end, order, EMPTY_WORD);
    }
    end
}

/// Lays a corner of a rectangle: only x and y.
#[tactic(auto, using(crate::proofs::Behind::behind_laws), unfolding(wkb_geom::specs::Encodings::words_encoding))]
pub fn lay_corner(bytes: &mut [u8], at: usize, order: Endianness, x: u64, y: u64) -> usize
    requires { at + CORNER_SIZE ≤ length bytes.old }
    ensures end { result ≡ at + CORNER_SIZE }
    ensures bytes { LaysAt at result bytes.old bytes.new
        (words_encoding order (x ∷ y ∷ [])) }
{
    let at = lay_word(bytes, at, order, x);
    lay_word(bytes, at, order, y)
}
