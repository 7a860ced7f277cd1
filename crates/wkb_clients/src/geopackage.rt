//! A reader and a writer of GeoPackage blobs (OGC 12-128, clause 2.1.3): which blobs are read, why no other is, and
//! that what was written of a geometry is read as it.

ghost use Rattle.std.specs.Prelude.{◌≡◌, ◌+◌, ◌++◌, ◌<◌, ◌≤◌, ◌⊎◌, ◌&&◌, MatchOption, IfOk, IfErr, drop, length};
ghost use Rattle.wkb.specs.Prelude.{number_bytes};
ghost use Rattle.wkb_clients.specs.Geopackage.{IsBlobHeader, HasNoBlobHeader, start_behind, order_said, body_of};
ghost use Rattle.wkb_clients.specs.Geopackage.{is_ewkb, is_number_at_most, axis_around, other_around, others_around};
ghost use Rattle.wkb_clients.specs.Geopackage.{envelope_around, header_order, envelope_kind, HoldsGeometry};
ghost use Rattle.wkb_clients.specs.Geopackage.{HoldsNoGeometry, IsWantOfMemory, IsWhy, GivesBack, flags_of};
ghost use Rattle.wkb_clients.specs.Geopackage.{header_bytes, range_bytes, envelope_bytes, FindsBlob};

use crate::own::bounds_of;
use std::alloc::{AllocError, Global};
use wkb::Endianness;
use wkb::check::{Bounds, Range, bounds};
use wkb::error::WkbError;
use wkb::geom::is_at_most;
use wkb::reader::{Wkb, read_wkb};
use wkb_geom::words::{EMPTY_WORD, is_nan, u32_at, u64_at};

/// What stands before the geometry: the order of the header's numbers, the kind of its envelope (0 for none, 1 for x
/// and y, 2 with z, 3 with m, 4 with both), whether the geometry is said to be empty, and the reference system.
#[derive(Clone, Copy)]
pub struct BlobHeader {
    pub order: Endianness,
    pub envelope: u8,
    pub empty: bool,
    pub srs: u32,
}

/// Why a blob isn't read.
#[derive(Drop)]
pub enum Unread {
    Header,
    Envelope,
    Ewkb,
    Geometry(WkbError),
}

/// A blob that was read.
#[derive(Drop)]
pub struct Package<'a> {
    pub header: BlobHeader,
    pub geometry: Wkb<'a>,
}

/// The order of which the lowest bit of the flags says that it is little endian.
fn order_of_bit(bit: u8) -> Endianness
    ensures { result ≡ order_said bit }
{
    if bit == 1 {
        Endianness::LittleEndian
    } else {
        Endianness::BigEndian
    }
}

/// Where the geometry begins behind an envelope of this kind.
pub fn start_behind(kind: u8) -> usize
    ensures { result ≡ start_behind kind }
{
    match kind {
        0 => 8,
        1 => 40,
        2 | 3 => 56,
        _ => 72,
    }
}

/// The header, where the blob begins with one whose envelope is whole.
pub fn read_header(blob: &[u8]) -> Option<BlobHeader>
    ensures { MatchOption result (HasNoBlobHeader blob.now) (λ h. IsBlobHeader blob.now h) }
{
    if blob.len() < 8 || blob[0] != 0x47 || blob[1] != 0x50 || blob[2] != 0 {
        return None;
    }
    let flags = blob[3];
    let envelope = flags / 2 % 8;
    if flags >= 32 || envelope > 4 || blob.len() < start_behind(envelope) {
        return None;
    }
    let order = order_of_bit(flags % 2);
    Some(BlobHeader {
        order,
        envelope,
        empty: flags >= 16,
        srs: u32_at(blob, 4, order),
    })
}

/// The bytes of a blob from an offset on; none if that is past the end.
pub(crate) fn from_offset(blob: &[u8], offset: usize) -> &[u8]
    ensures { result.now ≡ drop offset blob.now }
{
    &blob[offset.min(blob.len())..]
}

/// The bytes behind the header.
fn body_of(blob: &[u8], header: BlobHeader) -> &[u8]
    requires { IsBlobHeader blob.now header }
    ensures { result.now ≡ body_of blob.now }
{
    from_offset(blob, start_behind(header.envelope))
}

/// Whether the geometry's code has a flag of EWKB, which ISO's codes have not.
fn is_ewkb(body: &[u8]) -> bool
    ensures { result ≡ is_ewkb body.now }
{
    body.len() >= 5 && u32_at(body, 1, order_of_bit(body[0])) >= 0x20000000
}

/// Whether the two words at an offset are numbers around the range, or NaNs if it has no number, as in an empty
/// geometry.
#[tactic(auto, unfolding(crate::specs::Geopackage::axis_around))]
fn axis_around(blob: &[u8], at: usize, order: Endianness, range: Range) -> bool
    requires { at + 16 ≤ length blob.now }
    ensures { result ≡ axis_around order blob.now at range }
{
    let least = u64_at(blob, at, order);
    let greatest = u64_at(blob, at + 8, order);
    if range.count == 0 {
        return is_nan(least) && is_nan(greatest);
    }
    (!is_nan(least) && is_at_most(least, range.least))
        && (!is_nan(greatest) && is_at_most(range.greatest, greatest))
}

/// Whether the two words at an offset are around the range of z or of m; of an axis without a number they may be any.
fn other_around(blob: &[u8], at: usize, order: Endianness, range: Range) -> bool
    requires { at + 16 ≤ length blob.now }
    ensures { result ≡ other_around order blob.now at range }
{
    if range.count == 0 {
        return true;
    }
    axis_around(blob, at, order, range)
}

/// Whether the axes behind x and y are around those of the bounds.
fn others_around(blob: &[u8], order: Endianness, kind: u8, found: Bounds) -> bool
    requires { start_behind kind ≤ length blob.now }
    ensures { result ≡ others_around order kind blob.now found }
{
    match kind {
        2 => other_around(blob, 40, order, found.z),
        3 => other_around(blob, 40, order, found.m),
        4 => other_around(blob, 40, order, found.z) && other_around(blob, 56, order, found.m),
        _ => true,
    }
}

/// Whether the words of x and of y are around those of the bounds.
fn plane_around(blob: &[u8], order: Endianness, found: Bounds) -> bool
    requires { 40 ≤ length blob.now }
    ensures { result ≡
        (axis_around order blob.now 8 found.x && axis_around order blob.now 24 found.y) }
{
    axis_around(blob, 8, order, found.x) && axis_around(blob, 24, order, found.y)
}

/// Whether the envelope is around the bounds.
fn envelope_around(blob: &[u8], order: Endianness, kind: u8, found: Bounds) -> bool
    requires { start_behind kind ≤ length blob.now }
    ensures { result ≡ envelope_around order kind blob.now found }
{
    if kind == 0 {
        return true;
    }
    plane_around(blob, order, found) && others_around(blob, order, kind, found)
}

/// What the blob holds, or why it isn't read.
fn read_or_why<'a>(alloc: Global, blob: &'a [u8]) -> Result<Package<'a>, Unread>
    ensures ok { IfOk result (λ p. HoldsGeometry blob.now p.header p.geometry) }
    ensures why { IfErr result (λ e. IsWhy blob.now e) }
{
    let Some(header) = read_header(blob) else {
        return Err(Unread::Header);
    };
    let body = body_of(blob, header);
    if is_ewkb(body) {
        return Err(Unread::Ewkb);
    }
    match bounds(body) {
        Ok(found) => {
            if !envelope_around(blob, header.order, header.envelope, found) {
                return Err(Unread::Envelope);
            }
        }
        Err(refused) => return Err(Unread::Geometry(WkbError::from(refused.cause))),
    }
    match read_wkb(alloc, body) {
        Ok(geometry) => Ok(Package { header, geometry }),
        Err(e) => Err(Unread::Geometry(e)),
    }
}

/// Reads a blob: its header, an envelope around all numbers of the geometry, and the geometry in the codes of ISO. The
/// envelope of an empty geometry has NaNs alone. What `write` made of a package is read as that package.
pub fn read<'a>(alloc: Global, blob: &'a [u8]) -> Result<Package<'a>, Unread>
    ensures ok { IfOk result (λ p. HoldsGeometry blob.now p.header p.geometry) }
    ensures err { IfErr result (λ e. IsWantOfMemory e ⊎ HoldsNoGeometry blob.now) }
    ensures why { IfErr result (λ e. IsWhy blob.now e) }
    ensures back { GivesBack blob.now result }
{
    read_or_why(alloc, blob)
}

/// The byte of the flags.
fn flags_of(header: BlobHeader) -> u8
    requires { header.envelope ≤ 1 }
    ensures { result ≡ flags_of header }
{
    let plain = header.order.byte() + 2 * header.envelope;
    if header.empty { plain + 16 } else { plain }
}

#[tactic(auto, unfolding(wkb::specs::Prelude::number_bytes))]
fn add_word(blob: &mut Vec<u8>, order: Endianness, word: u64) -> Result<(), AllocError>
    ensures { IfOk result (λ _. blob.new.items ≡ blob.old.items ++ number_bytes order 8 word) }
{
    match order {
        Endianness::BigEndian => blob.extend_from_slice(&word.to_be_bytes()),
        Endianness::LittleEndian => blob.extend_from_slice(&word.to_le_bytes()),
    }
}

/// The letters, the version, the flags and the reference system.
#[tactic(auto, unfolding(wkb::specs::Prelude::number_bytes))]
fn add_header(blob: &mut Vec<u8>, header: BlobHeader) -> Result<(), AllocError>
    requires { header.envelope ≤ 1 }
    ensures { IfOk result (λ _. blob.new.items ≡ blob.old.items ++ header_bytes header) }
{
    blob.extend_from_slice(&[0x47, 0x50, 0, flags_of(header)])?;
    match header.order {
        Endianness::BigEndian => blob.extend_from_slice(&header.srs.to_be_bytes()),
        Endianness::LittleEndian => blob.extend_from_slice(&header.srs.to_le_bytes()),
    }
}

/// The two words of an axis; NaNs if the geometry has no number on it.
fn add_range(blob: &mut Vec<u8>, order: Endianness, range: Range) -> Result<(), AllocError>
    ensures { IfOk result (λ _. blob.new.items ≡ blob.old.items ++ range_bytes order range) }
{
    if range.count == 0 {
        add_word(blob, order, EMPTY_WORD)?;
        return add_word(blob, order, EMPTY_WORD);
    }
    add_word(blob, order, range.least)?;
    add_word(blob, order, range.greatest)
}

/// The envelope of x and y, if the header says one.
fn add_envelope(blob: &mut Vec<u8>, header: BlobHeader, found: Bounds) -> Result<(), AllocError>
    ensures { IfOk result
        (λ _. blob.new.items ≡ blob.old.items ++ envelope_bytes header.order header.envelope found) }
{
    if header.envelope == 0 {
        return Ok(());
    }
    add_range(blob, header.order, found.x)?;
    add_range(blob, header.order, found.y)
}

/// Writes a blob: the header, the envelope of the geometry's x and y or none, and the geometry's own bytes.
///
/// None if these are EWKB, or the header says an envelope of more axes.
pub fn write(alloc: Global, whole: &Package<'_>) -> Result<Option<Vec<u8>>, AllocError>
    ensures { IfOk result (FindsBlob whole.now) }
{
    let header = whole.header;
    let body = whole.geometry.buf();
    if header.envelope > 1 || is_ewkb(body) {
        return Ok(None);
    }
    let found = bounds_of(&whole.geometry);
    let mut blob = Vec::with_capacity(alloc, body.len().saturating_add(40))?;
    add_header(&mut blob, header)?;
    add_envelope(&mut blob, header, found)?;
    blob.extend_from_slice(body)?;
    Ok(Some(blob))
}
