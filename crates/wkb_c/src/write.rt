//! The encoding that the options ask for, of one input.

ghost use Rattle.std.specs.Prelude.{◌≡◌, ◌≢◌, ◌≤◌, ◌+◌, ◌⊎◌, ◌↔◌, None, length, ◌<◌};
ghost use Rattle.wkb_geom.specs.Reading.{type_kind};
ghost use Rattle.wkb_geom.specs.declared.code.TheConstants.{POLYGON};
ghost use Rattle.wkb_check.specs.Public.{DescribesFront};
ghost use Rattle.wkb_abi.specs.Classes.{IsRefusalStatus, IsNoRefusal};
ghost use Rattle.wkb_abi.specs.Requests.{request_of, options_for};
ghost use Rattle.wkb_abi.specs.Statuses.{IsFault, IsStatusOfWriting};
ghost use Rattle.wkb_abi.specs.Writings.{HasEncoding, Encodes, WritesRequested, WritesAsked};
ghost use Rattle.wkb_abi.specs.Room.{AreWritten, FindsNoRoom};

use crate::check::check_input;
use wkb_abi::fault::WkbFault;
use wkb_abi::options::{Options, Request, request_of};
use wkb_abi::status::{NO_ROOM, OK, UNKNOWN_OPTION};
use wkb_check::{Summary, check_plain};
use wkb_geom::Form;
use wkb_geom::code::WkbType;
use wkb_geom::header::SRID_SIZE;
use wkb_rewrite::{encoded_size, lay_encoding, lay_one_piece, lay_polygon, size_with_own_srid};
use wkb_sink::WriteOptions;

/// Writes the encoding that the options ask for, and its length.
///
/// `NO_ROOM` writes the length too, but no encoding. Options that mean nothing are reported whatever the bytes are. A
/// refusal leaves `out` unchanged.
#[unsafe(no_mangle)]
pub extern "C" fn wkb_raw_write(
    buf: &[u8],
    options: &Options,
    out: &mut [u8],
    size: &mut u64,
    fault: &mut WkbFault,
) -> u32
    ensures written { result ≡ OK → AreWritten (HasEncoding options.now buf.now)
        out.old out.new size.new }
    ensures no_room { result ≡ NO_ROOM → FindsNoRoom (HasEncoding options.now buf.now)
        out.old size.new }
    ensures unknown { (result ≡ UNKNOWN_OPTION) ↔ (request_of options.now ≡ None) }
    ensures bound { (result ≡ OK) ⊎ (result ≡ NO_ROOM) → size.new ≤ length buf.now + 4 }
    ensures refused { IsRefusalStatus result → IsFault buf.now result fault.new }
    ensures known { IsStatusOfWriting result }
    ensures out_kept { result ≢ OK → out.new ≡ out.old }
    ensures size_kept { result ≢ OK → result ≢ NO_ROOM → size.new ≡ size.old }
    ensures fault_kept { IsNoRefusal result → fault.new ≡ fault.old }
{
    match check_plain(buf) {
        Some(plain) => write_plain(buf, &plain, options, out, size),
        None => write_any(buf, options, out, size, fault),
    }
}

/// Writes by the long way, which collections and rejected bytes need.
///
/// It isn't inlined, so that other bytes don't pay for its frame.
#[inline(never)]
fn write_any(
    buf: &[u8],
    options: &Options,
    out: &mut [u8],
    size: &mut u64,
    fault: &mut WkbFault,
) -> u32
    ensures { Encodes options.now buf.now out.old out.new
        size.old size.new fault.old fault.new result }
{
    let Some(request) = request_of(options) else {
        return UNKNOWN_OPTION;
    };
    match check_input(buf, fault) {
        Ok(found) => write_requested(buf, &found, request, out, size),
        Err(status) => status,
    }
}

/// As `write_requested` for these options, if they mean something, by shorter code for some kinds.
///
/// These read the options themselves, so that they take no registers during the check, and no place in memory.
#[inline(always)]
pub fn write_plain(
    buf: &[u8],
    found: &Summary,
    options: &Options,
    out: &mut [u8],
    size: &mut u64,
) -> u32
    requires { DescribesFront buf.now found.now }
    ensures { WritesAsked options.now buf.now out.old out.new result size.old size.new }
{
    match found.wkb_type {
        WkbType::Point(_) | WkbType::LineString(_) => {
            write_one_piece(buf, found, options, out, size)
        }
        WkbType::Polygon(_) => write_polygon(buf, found, options, out, size),
        _ => write_others(buf, found, options, out, size),
    }
}

/// As `write_requested` for these options, for a geometry that is one piece: a point or a line string.
///
/// It isn't inlined, so that other geometries don't pay for its frame.
#[inline(never)]
fn write_one_piece(
    buf: &[u8],
    found: &Summary,
    options: &Options,
    out: &mut [u8],
    size: &mut u64,
) -> u32
    requires here { DescribesFront buf.now found.now }
    requires kind { type_kind found.now.wkb_type < POLYGON }
    ensures { WritesAsked options.now buf.now out.old out.new result size.old size.new }
{
    let Some(request) = request_of(options) else {
        return UNKNOWN_OPTION;
    };
    let options = options_for(request, found.srid);
    let wanted = size_with_own_srid(buf, found, options.form);
    *size = wanted as u64;
    if out.len() < wanted {
        return NO_ROOM;
    }
    lay_one_piece(buf, found, options, out);
    OK
}

/// As `write_one_piece`, for a polygon.
#[inline(never)]
fn write_polygon(
    buf: &[u8],
    found: &Summary,
    options: &Options,
    out: &mut [u8],
    size: &mut u64,
) -> u32
    requires here { DescribesFront buf.now found.now }
    requires kind { type_kind found.now.wkb_type ≡ POLYGON }
    ensures { WritesAsked options.now buf.now out.old out.new result size.old size.new }
{
    let Some(request) = request_of(options) else {
        return UNKNOWN_OPTION;
    };
    let options = options_for(request, found.srid);
    let wanted = size_with_own_srid(buf, found, options.form);
    *size = wanted as u64;
    if out.len() < wanted {
        return NO_ROOM;
    }
    lay_polygon(buf, found, options, out);
    OK
}

/// As `write_one_piece`, for any geometry.
#[tactic(auto, using(crate::proofs::Encodings::meant))]
#[inline(never)]
pub fn write_others(
    buf: &[u8],
    found: &Summary,
    options: &Options,
    out: &mut [u8],
    size: &mut u64,
) -> u32
    requires { DescribesFront buf.now found.now }
    ensures { WritesAsked options.now buf.now out.old out.new result size.old size.new }
{
    match request_of(options) {
        Some(request) => write_requested(buf, found, request, out, size),
        None => UNKNOWN_OPTION,
    }
}

/// Writes the encoding that is asked for of the geometry at the start of bytes in which the check found this, and
/// reports its length. Without room nothing is written.
///
/// It is inlined, so that a row takes one call.
#[inline(always)]
pub fn write_requested(
    buf: &[u8],
    found: &Summary,
    request: Request,
    out: &mut [u8],
    size: &mut u64,
) -> u32
    requires { DescribesFront buf.now found.now }
    ensures { WritesRequested request buf.now out.old out.new result size.new }
{
    let options = options_for(request, found.srid);
    // An encoding is at most an SRID longer than its input, so its size is only asked for where there is less room.
    if out.len() < buf.len() + SRID_SIZE {
        let wanted = encoded_size(buf, found, options.form);
        if out.len() < wanted {
            *size = wanted as u64;
            return NO_ROOM;
        }
    }
    *size = lay_encoding(buf, found, options, out) as u64;
    OK
}

/// The options of a request, for a geometry that has this SRID of its own.
pub fn options_for(request: Request, srid: Option<u32>) -> WriteOptions
    ensures { result ≡ options_for request srid }
{
    match request {
        Request::Encoding(options) => options,
        Request::OwnSrid(endianness) => WriteOptions {
            endianness,
            form: Form::Ewkb { srid },
        },
    }
}
