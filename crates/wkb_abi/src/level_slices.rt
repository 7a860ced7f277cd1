//! The coordinates of a geometry, in levels: it has singles, a single has rings, a ring has coordinates.

ghost use Rattle.std.specs.Prelude.{◌≡◌, ◌+◌, ◌*◌, ◌^◌, ◌<◌, ◌≤◌, ◌&&◌, length, sum, drop, slice_index, IsTrue, false};
ghost use lib.Seq.{sets};
ghost use Rattle.wkb_geom.specs.Dimensions.{width};
ghost use Rattle.wkb_geom.specs.Numbers.{number};
ghost use Rattle.wkb_geom.specs.Reading.{coordinate, items};
ghost use Rattle.wkb_geom.specs.declared.code.TheConstants.{POLYGON};
ghost use Rattle.wkb_geom.specs.declared.common.Endianness.TheVariants.{LittleEndian};
ghost use Rattle.wkb_check.specs.Known.{HasGeometry};
ghost use Rattle.wkb_check.specs.Pieces.{IsPieceAt};
ghost use Rattle.wkb_abi.specs.Coordinates.{z_of, m_of, HasRoomUpTo};
ghost use Rattle.wkb_abi.specs.LevelLists.{levels_of, AreSameSlices, HasRoomFor, LaysLevels};
ghost use Rattle.wkb_abi.specs.PieceLevels.{ring_sizes, single_sizes, AreInside, IsRingInside, words_read, words_from};
ghost use Rattle.wkb_abi.specs.PieceLevels.{words_asked_of, with_words, with_ring_end, with_single_end};
ghost use Rattle.wkb_abi.specs.PieceLevels.{PieceFits, with_piece};

use crate::totals::{Totals, is_single};
use wkb_check::{Piece, Pieces};
use wkb_geom::code::{POINT, POLYGON};
use wkb_geom::words::{EMPTY_WORD, WORD_SIZE, rest_from, u64_at};
use wkb_geom::{Dimension, Endianness, by_order};

/// The slices that the levels are written to.
#[repr(C)]
#[derive(Drop)]
pub struct LevelSlices<'a> {
    pub words: &'a mut [u64],
    pub ring_ends: &'a mut [u64],
    pub single_ends: &'a mut [u64],
}

/// Word n of the coordinate that is read from here on in this order.
#[tactic(auto, using(crate::proofs::Levels::coordinate_word))]
#[inline(always)]
fn word_of(row: &[u8], from: usize, n: usize, order: Endianness) -> u64
    requires { from + 8 * (n + 1) ≤ length row.now }
    ensures { (own : Dimension) → n < width own
        → result ≡ slice_index (coordinate order own (drop from row.now)) n }
{
    u64_at(row, from + n * WORD_SIZE, order)
}

/// The z of a coordinate of this dimension.
#[inline(always)]
fn z_word(row: &[u8], from: usize, order: Endianness, own: Dimension) -> u64
    requires { from + 8 * width own ≤ length row.now }
    ensures { result ≡ z_of own (coordinate order own (drop from row.now)) }
{
    match own {
        Dimension::Xy => EMPTY_WORD,
        Dimension::Xyz => word_of(row, from, 2, order),
        Dimension::Xym => EMPTY_WORD,
        Dimension::Xyzm => word_of(row, from, 2, order),
    }
}

/// The m of a coordinate of this dimension.
#[inline(always)]
fn m_word(row: &[u8], from: usize, order: Endianness, own: Dimension) -> u64
    requires { from + 8 * width own ≤ length row.now }
    ensures { result ≡ m_of own (coordinate order own (drop from row.now)) }
{
    match own {
        Dimension::Xy => EMPTY_WORD,
        Dimension::Xyz => EMPTY_WORD,
        Dimension::Xym => word_of(row, from, 2, order),
        Dimension::Xyzm => word_of(row, from, 3, order),
    }
}

/// Writes the words that are asked for of a coordinate.
#[inline(always)]
fn lay_coordinate(
    row: &[u8],
    from: usize,
    order: Endianness,
    own: Dimension,
    asked: Dimension,
    out: &mut [u64],
    at: usize,
)
    requires inside { from + 8 * width own ≤ length row.now }
    requires room { at + width asked ≤ length out.old }
    ensures { out.new ≡ sets out.old at (words_read asked order own row.now from) }
{
    // Reads both before storing either, so that one 16-byte move does it.
    let x = word_of(row, from, 0, order);
    let y = word_of(row, from, 1, order);
    out[at] = x;
    out[at + 1] = y;
    match asked {
        Dimension::Xy => {}
        Dimension::Xyz => out[at + 2] = z_word(row, from, order, own),
        Dimension::Xym => out[at + 2] = m_word(row, from, order, own),
        Dimension::Xyzm => {
            out[at + 2] = z_word(row, from, order, own);
            out[at + 3] = m_word(row, from, order, own);
        }
    }
}

/// Writes the words that are asked for of `count` coordinates, which have this order and dimension.
#[inline(always)]
fn lay_ordered(
    bytes: &[u8],
    count: u32,
    order: Endianness,
    own: Dimension,
    asked: Dimension,
    out: &mut [u64],
    start: usize,
)
    requires inside { 8 * width own * count ≤ length bytes.now }
    requires room { start + width asked * count ≤ length out.old }
    ensures { out.new ≡ sets out.old start (words_from asked order own count bytes.now) }
{
    let mut from = 0;
    let mut at = start;
    for _ in 0..count {
        lay_coordinate(bytes, from, order, own, asked, out, at);
        from += own.coordinate_size();
        at += asked.width();
    }
}

/// Writes words of little endian as they come. It isn't inlined, so that the compiler knows that what it writes to is
/// apart from what it reads, and makes it one copy.
#[inline(never)]
fn lay_words(bytes: &[u8], words: usize, out: &mut [u64], start: usize)
    requires inside { 8 * words ≤ length bytes.now }
    requires room { start + words ≤ length out.old }
    ensures { out.new ≡ sets out.old start (items 8 (number LittleEndian 8) words bytes.now) }
{
    for k in 0..words {
        out[start + k] = u64_at(bytes, k * WORD_SIZE, Endianness::LittleEndian);
    }
}

/// As `lay_many_coordinates`, of one coordinate. It is inlined, so that a point takes no call.
#[inline(always)]
fn lay_one_coordinate(
    bytes: &[u8],
    order: Endianness,
    own: Dimension,
    asked: Dimension,
    out: &mut [u64],
    start: usize,
)
    requires inside { 8 * width own ≤ length bytes.now }
    requires room { start + width asked ≤ length out.old }
    ensures { out.new ≡ sets out.old start (words_from asked order own 1 bytes.now) }
{
    by_order!(order, lay_ordered(bytes, 1, order, own, asked, out, start))
}

/// Writes the words that are asked for of `count` coordinates. The order is a constant in each loop, and in big endian
/// the dimensions are, too, where xy, xyz or xyzm is both there and asked for. It takes scalars, so that its callers need
/// no piece in memory.
#[inline(never)]
fn lay_many_coordinates(
    bytes: &[u8],
    count: u32,
    order: Endianness,
    own: Dimension,
    asked: Dimension,
    out: &mut [u64],
    start: usize,
)
    requires inside { 8 * width own * count ≤ length bytes.now }
    requires room { start + width asked * count ≤ length out.old }
    ensures { out.new ≡ sets out.old start (words_from asked order own count bytes.now) }
{
    use Dimension::{Xy, Xyz, Xyzm};
    use Endianness::{BigEndian as Big, LittleEndian as Little};
    match (order, own, asked) {
        (Big, Xy, Xy) => lay_ordered(bytes, count, Big, Xy, Xy, out, start),
        (Big, Xyz, Xyz) => lay_ordered(bytes, count, Big, Xyz, Xyz, out, start),
        (Big, Xyzm, Xyzm) => lay_ordered(bytes, count, Big, Xyzm, Xyzm, out, start),
        (Little, _, _) => lay_ordered(bytes, count, Little, own, asked, out, start),
        (Big, _, _) => lay_ordered(bytes, count, Big, own, asked, out, start),
    }
}

/// Writes the words that are asked for of the coordinates of a piece.
#[inline(always)]
fn lay_piece_coordinates(row: &[u8], piece: &Piece, asked: Dimension, out: &mut [u64], start: usize)
    requires inside { AreInside row.now piece.now.dimension piece.now }
    requires room { start + width asked * piece.now.count ≤ length out.old }
    ensures { out.new ≡ sets out.old start (words_asked_of asked row.now piece.now) }
{
    let bytes = rest_from(row, piece.offset);
    // A ring is no point, which the compiler knows, so that only a point is tested for this.
    if piece.kind == POINT && piece.count == 1 {
        return lay_one_coordinate(bytes, piece.order, piece.dimension, asked, out, start);
    }
    if piece.order == Endianness::LittleEndian && piece.dimension == asked {
        let words = piece.dimension.width() * piece.count as usize;
        return lay_words(bytes, words, out, start);
    }
    lay_many_coordinates(
        bytes,
        piece.count,
        piece.order,
        piece.dimension,
        asked,
        out,
        start,
    );
}

/// Whether so many words hold so many coordinates. The division is by a constant in each arm, so that it is a shift or
/// a multiplication, and no product overflows.
#[inline(always)]
fn hold(words: u64, coordinates: u64, asked: Dimension) -> bool
    ensures yes { IsTrue result → width asked * coordinates ≤ words }
    ensures no { result ≡ false → width asked * coordinates ≤ words → ⊥ }
{
    match asked {
        Dimension::Xy => coordinates <= words / 2,
        Dimension::Xyz | Dimension::Xym => coordinates <= words / 3,
        Dimension::Xyzm => coordinates <= words / 4,
    }
}

/// Whether there is room for words, rings and singles up to these totals.
#[inline(always)]
pub fn has_room(to: &Totals, asked: Dimension, out: &LevelSlices<'_>) -> bool
    ensures yes { IsTrue result → HasRoomUpTo asked (levels_of out.now) to.now }
    ensures no { result ≡ false → HasRoomUpTo asked (levels_of out.now) to.now → ⊥ }
{
    hold(out.words.len() as u64, to.coordinates, asked)
        && to.rings <= out.ring_ends.len() as u64
        && to.singles <= out.single_ends.len() as u64
}

/// Writes the words of a piece and where it ends, if it is a ring.
#[inline(always)]
fn lay_ring(
    row: &[u8],
    piece: &Piece,
    asked: Dimension,
    at: Totals,
    words: &mut [u64],
    ring_ends: &mut [u64],
)
    requires inside { IsRingInside row.now piece.now }
    requires words_fit { width asked * (at.coordinates + sum (ring_sizes piece.now))
        ≤ length words.old }
    requires ends_fit { at.rings + length (ring_sizes piece.now) ≤ length ring_ends.old }
    ensures words { words.new ≡ with_words asked row.now piece.now at words.old }
    ensures ends { ring_ends.new ≡ with_ring_end piece.now at ring_ends.old }
{
    if !piece.has_coordinates() {
        return;
    }
    let start = asked.width() * at.coordinates as usize;
    lay_piece_coordinates(row, piece, asked, words, start);
    ring_ends[at.rings as usize] = at.coordinates + piece.count as u64;
}

/// Writes where a piece ends, if it is a single.
#[inline(always)]
fn lay_single(piece: &Piece, at: Totals, single_ends: &mut [u64])
    requires small { at.rings < 2 ^ 63 }
    requires fits { at.singles + length (single_sizes piece.now) ≤ length single_ends.old }
    ensures { single_ends.new ≡ with_single_end piece.now at single_ends.old }
{
    if !is_single(piece) {
        return;
    }
    let rings = if piece.has_coordinates() {
        1
    } else {
        piece.count as u64
    };
    single_ends[at.singles as usize] = at.rings + rings;
}

/// Writes what a piece gives each level.
#[inline(always)]
fn lay_piece_levels(
    row: &[u8],
    piece: &Piece,
    asked: Dimension,
    at: Totals,
    out: &mut LevelSlices<'_>,
)
    requires { PieceFits asked row.now piece.now at (levels_of out.old) }
    ensures laid { levels_of out.new ≡ with_piece asked row.now piece.now at (levels_of out.old) }
    ensures same_slices { AreSameSlices out.old out.new }
{
    lay_ring(row, piece, asked, at, out.words, out.ring_ends);
    lay_single(piece, at, out.single_ends);
}

/// The first piece of a geometry. A plain header in this order is compared, not decoded.
#[inline(always)]
fn first_of_member(bytes: &[u8], order: Endianness) -> Piece
    requires { HasGeometry bytes.now }
    ensures { IsPieceAt bytes.now 0 result }
{
    match Pieces::of(bytes).next_bare(order) {
        Some(piece) => piece,
        None => Piece::of_geometry(bytes, 0),
    }
}

/// Writes the levels of a row from the totals on, for which there is room, by its first piece. Those of a geometry with
/// one member are those of that member.
#[inline(always)]
pub fn lay_levels(
    row: &[u8],
    first: &Piece,
    from: Totals,
    asked: Dimension,
    out: &mut LevelSlices<'_>,
)
    requires here { HasGeometry row.now }
    requires first { IsPieceAt row.now 0 first.now }
    requires room { HasRoomFor asked row.now from out.old }
    ensures levels { LaysLevels asked row.now from out.old out.new }
    ensures same_slices { AreSameSlices out.old out.new }
{
    match first.only_member(row) {
        Some(member) => {
            let own = first_of_member(member, first.order);
            lay_by_kind(member, &own, from, asked, out);
        }
        None => lay_by_kind(row, first, from, asked, out),
    }
}

/// As `lay_levels`, of a geometry that may have more members.
#[inline(always)]
fn lay_by_kind(row: &[u8], first: &Piece, from: Totals, asked: Dimension, out: &mut LevelSlices<'_>)
    requires here { HasGeometry row.now }
    requires first { IsPieceAt row.now 0 first.now }
    requires room { HasRoomFor asked row.now from out.old }
    ensures levels { LaysLevels asked row.now from out.old out.new }
    ensures same_slices { AreSameSlices out.old out.new }
{
    if first.has_coordinates() {
        lay_piece_levels(row, first, asked, from, out);
    } else if first.kind == POLYGON {
        // In the first arm the loop tests neither for each ring: the order is a constant, and the dimensions are one.
        match (first.order, first.dimension == asked) {
            (Endianness::LittleEndian, true) => {
                let plain = Piece {
                    order: Endianness::LittleEndian,
                    dimension: asked,
                    ..*first
                };
                lay_rings(row, &plain, from, asked, out);
            }
            _ => lay_rings(row, first, from, asked, out),
        }
    } else {
        lay_walked(row, first, from, asked, out);
    }
}

/// Writes the levels of a polygon from the totals on, for which there is room, by its first piece.
#[inline(always)]
fn lay_rings(row: &[u8], first: &Piece, from: Totals, asked: Dimension, out: &mut LevelSlices<'_>)
    requires here { HasGeometry row.now }
    requires first { IsPieceAt row.now 0 first.now }
    requires polygon { first.now.kind ≡ POLYGON }
    requires room { HasRoomFor asked row.now from out.old }
    ensures levels { LaysLevels asked row.now from out.old out.new }
    ensures same_slices { AreSameSlices out.old out.new }
{
    let mut pieces = Pieces::behind(row, first);
    lay_piece_levels(row, first, asked, from, out);
    let mut at = from.with(first);
    while let Some(ring) = pieces.next_if_ring() {
        lay_piece_levels(row, &ring, asked, at, out);
        at = at.with(&ring);
    }
}

/// Lays the levels of a geometry, by a walk from its first piece on.
#[inline(never)]
fn lay_walked(row: &[u8], first: &Piece, from: Totals, asked: Dimension, out: &mut LevelSlices<'_>)
    requires here { HasGeometry row.now }
    requires first { IsPieceAt row.now 0 first.now }
    requires room { HasRoomFor asked row.now from out.old }
    ensures levels { LaysLevels asked row.now from out.old out.new }
    ensures same_slices { AreSameSlices out.old out.new }
{
    let mut pieces = Pieces::behind(row, first);
    lay_piece_levels(row, first, asked, from, out);
    let mut at = from.with(first);
    loop {
        if let Some(ring) = pieces.next_if_ring() {
            lay_piece_levels(row, &ring, asked, at, out);
            at = at.with(&ring);
        } else if let Some(piece) = pieces.next() {
            lay_piece_levels(row, &piece, asked, at, out);
            at = at.with(&piece);
        } else {
            return;
        }
    }
}
