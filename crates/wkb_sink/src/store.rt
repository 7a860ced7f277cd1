//! Numbers and coordinates into the bytes of a slice.

ghost use Rattle.std.specs.Prelude.{◌≡◌, ◌-◌, ◌*◌, ◌≤◌, ◌++◌, length, drop, take};
ghost use Rattle.wkb_geom.specs.Dimensions.{size};
ghost use Rattle.wkb_geom.specs.Numbers.{number_bytes};
ghost use Rattle.wkb_geom.specs.Encodings.{words_encoding};
ghost use Rattle.wkb_sink.specs.Runs.{AreRunEnds, Turns, x_y_encoding, run_size, run_encoding, other as the_other};

use crate::block::CORNER_SIZE;
use byteorder::{BigEndian, ByteOrder, LittleEndian};
use wkb_geom::words::{WORD_SIZE, u64_at};
use wkb_geom::{CoordTrait, Endianness, LineStringTrait};

/// The four bytes of a count, a code or an SRID.
#[inline]
#[tactic(auto, unfolding(wkb_geom::specs::Numbers::number_bytes))]
pub fn u32_bytes(order: Endianness, n: u32) -> [u8; 4]
    ensures { result ≡ number_bytes order 4 n }
{
    let mut bytes = [0; 4];
    match order {
        Endianness::BigEndian => BigEndian::write_u32(&mut bytes, n),
        Endianness::LittleEndian => LittleEndian::write_u32(&mut bytes, n),
    }
    bytes
}

/// Stores a word in the first eight bytes.
#[inline]
#[tactic(auto, using(crate::proofs::Stores::stored_laws), unfolding(wkb_geom::specs::Numbers::number_bytes))]
pub fn store_word(bytes: &mut [u8], order: Endianness, word: u64)
    requires { 8 ≤ length bytes.old }
    ensures { take 8 bytes.new ≡ number_bytes order 8 word }
{
    match order {
        Endianness::BigEndian => BigEndian::write_u64(bytes, word),
        Endianness::LittleEndian => LittleEndian::write_u64(bytes, word),
    }
}

#[inline]
#[tactic(auto, using(crate::proofs::Stores::stored_next))]
fn store_two(bytes: &mut [u8], order: Endianness, first: u64, second: u64)
    requires { 16 ≤ length bytes.old }
    ensures { take 16 bytes.new ≡ number_bytes order 8 first ++ number_bytes order 8 second }
{
    store_word(bytes, order, first);
    store_word(&mut bytes[WORD_SIZE..], order, second);
}

#[inline]
fn store_x_y<C: CoordTrait>(bytes: &mut [u8], order: Endianness, coord: &C)
    requires least { 2 ≤ size (C.dimensions coord.now) }
    requires room { 16 ≤ length bytes.old }
    ensures { take 16 bytes.new ≡ x_y_encoding order (C.words coord.now) }
{
    store_two(bytes, order, coord.x(), coord.y());
}

/// Stores the words of a coordinate of two, three or four in the first bytes.
#[inline(always)]
#[tactic(auto, using(crate::proofs::Stores::coordinate_laws))]
pub fn store_coordinate<C: CoordTrait>(bytes: &mut [u8], coord: &C, width: usize, order: Endianness)
    requires width { width ≡ size (C.dimensions coord.now) }
    requires least { 2 ≤ width }
    requires most { width ≤ 4 }
    requires room { 8 * width ≤ length bytes.old }
    ensures { take (8 * width) bytes.new ≡ words_encoding order (C.words coord.now) }
{
    store_x_y(bytes, order, coord);
    match width {
        2 => {}
        3 => store_word(&mut bytes[CORNER_SIZE..], order, coord.at(2)),
        _ => store_two(&mut bytes[CORNER_SIZE..], order, coord.at(2), coord.at(3)),
    }
}

/// Stores the coordinates from an index up to another one. Where it is inlined the order and the width are constants.
#[inline(always)]
#[tactic(auto, using(crate::proofs::Stores::run_laws))]
fn store_run<L: LineStringTrait>(
    bytes: &mut [u8],
    line: &L,
    from: usize,
    to: usize,
    order: Endianness,
    width: usize,
) -> usize
    requires run { AreRunEnds (L.dimensions line.now) (L.coordinates line.now) from to }
    requires width { width ≡ size (L.dimensions line.now) }
    requires room { 8 * width * (to - from) ≤ length bytes.old }
    ensures len { result ≡ 8 * width * (to - from) }
    ensures bytes { take result bytes.new
        ≡ run_encoding order (L.coordinates line.now) from to }
{
    let mut at = 0;
    for i in from..to {
        store_coordinate(&mut bytes[at..], &line.coord_at(i), width, order);
        at += WORD_SIZE * width;
    }
    at
}

/// The items from an index up to another one, all of one size, out of the bytes or the words of all.
#[inline(always)]
fn items_between<T>(all: &[T], size: usize, from: usize, to: usize) -> &[T]
    requires order { from ≤ to }
    requires within { size * to ≤ length all.now }
    ensures { result.now ≡ take (size * to - size * from) (drop (size * from) all.now) }
{
    &all[size * from..size * to]
}

/// As `store_words`, so many pairs. Where it is inlined the lengths are known to be those of the pairs, so that no index
/// is tested.
#[inline(always)]
#[tactic(auto, using(crate::proofs::Turned::turned_laws), unfolding(wkb_geom::specs::Encodings::words_encoding))]
fn store_pairs(bytes: &mut [u8], lent: &[u8], pairs: usize, held: Endianness, order: Endianness)
    requires whole { length lent.now ≡ 16 * pairs }
    requires same { length bytes.old ≡ 16 * pairs }
    ensures { Turns held order lent.now bytes.new }
{
    // Two words per iteration: a processor that can swap both at once then does.
    for pair in 0..pairs {
        let at = 2 * WORD_SIZE * pair;
        let first = u64_at(lent, at, held);
        let second = u64_at(lent, at + WORD_SIZE, held);
        store_two(&mut bytes[at..], order, first, second);
    }
}

/// Stores words in one order out of bytes that hold them in another.
#[inline(always)]
#[tactic(auto, using(crate::proofs::Turned::turned_laws), unfolding(wkb_geom::specs::Encodings::words_encoding))]
pub fn store_words(bytes: &mut [u8], lent: &[u8], held: Endianness, order: Endianness)
    requires { length lent.now ≤ length bytes.old }
    ensures { Turns held order lent.now (take (length lent.now) bytes.new) }
{
    let pairs = lent.len() / (2 * WORD_SIZE);
    let at = 2 * WORD_SIZE * pairs;
    store_pairs(&mut bytes[..at], &lent[..at], pairs, held, order);
    if lent.len() - at >= WORD_SIZE {
        let last = u64_at(lent, at, held);
        store_word(&mut bytes[at..], order, last);
    }
}

/// As `store_each`, so many pairs. Where it is inlined the lengths are known to be those of the pairs, so that no index
/// is tested.
#[inline(always)]
#[tactic(auto, using(crate::proofs::Turned::each_laws), unfolding(wkb_geom::specs::Encodings::words_encoding))]
fn store_each_pair(bytes: &mut [u8], words: &[u64], pairs: usize, order: Endianness)
    requires whole { length words.now ≡ 2 * pairs }
    requires same { length bytes.old ≡ 16 * pairs }
    ensures { bytes.new ≡ words_encoding order words.now }
{
    for pair in 0..pairs {
        let (first, second) = (words[2 * pair], words[2 * pair + 1]);
        store_two(&mut bytes[2 * WORD_SIZE * pair..], order, first, second);
    }
}

/// Stores words one after another.
#[inline(always)]
#[tactic(auto, using(crate::proofs::Turned::each_laws), unfolding(wkb_geom::specs::Encodings::words_encoding))]
fn store_each(bytes: &mut [u8], words: &[u64], order: Endianness)
    requires { 8 * length words.now ≤ length bytes.old }
    ensures { take (8 * length words.now) bytes.new ≡ words_encoding order words.now }
{
    let pairs = words.len() / 2;
    let at = 2 * pairs;
    store_each_pair(&mut bytes[..WORD_SIZE * at], &words[..at], pairs, order);
    if at < words.len() {
        store_word(&mut bytes[WORD_SIZE * at..], order, words[at]);
    }
}

/// The order that isn't this one.
#[inline(always)]
pub fn other(order: Endianness) -> Endianness
    ensures { result ≡ the_other order }
{
    match order {
        Endianness::BigEndian => Endianness::LittleEndian,
        Endianness::LittleEndian => Endianness::BigEndian,
    }
}

/// Stores the coordinates from an index up to another one, and returns their size. Where the line has them as bytes in
/// the other order, or as words, it stores the words of those; else it asks for one coordinate after another. Where it
/// is inlined the order is a constant.
#[inline(always)]
pub fn store_coordinates<L: LineStringTrait>(
    bytes: &mut [u8],
    line: &L,
    from: usize,
    to: usize,
    order: Endianness,
) -> usize
    requires run { AreRunEnds (L.dimensions line.now) (L.coordinates line.now) from to }
    requires room { run_size (L.dimensions line.now) from to ≤ length bytes.old }
    ensures len { result ≡ run_size (L.dimensions line.now) from to }
    ensures bytes { take result bytes.new
        ≡ run_encoding order (L.coordinates line.now) from to }
{
    let width = line.dim().size();
    let held = other(order);
    if let Some(all) = line.coords_as_written(held) {
        let lent = items_between(all, WORD_SIZE * width, from, to);
        store_words(bytes, lent, held, order);
        lent.len()
    } else if let Some(all) = line.coords_as_words() {
        let run = items_between(all, width, from, to);
        store_each(bytes, run, order);
        WORD_SIZE * run.len()
    } else if width == 2 {
        store_run(bytes, line, from, to, order, 2)
    } else {
        store_run(bytes, line, from, to, order, width)
    }
}
