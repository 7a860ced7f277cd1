//! The table of a geometry's parts.

ghost use Rattle.std.specs.Prelude.{◌≡◌, ◌≢◌, ◌⊎◌, length};
ghost use Rattle.wkb_check.specs.Public.{DescribesFront};
ghost use Rattle.wkb_abi.specs.Classes.{IsRefusalStatus, IsNoRefusal};
ghost use Rattle.wkb_abi.specs.Statuses.{IsFault, IsStatusOfListing};
ghost use Rattle.wkb_abi.specs.Room.{AreWritten, FindsNoRoom};
ghost use Rattle.wkb_abi.specs.Subjects.{HasTable};

use crate::check::check_input;
use wkb_abi::fault::WkbFault;
use wkb_abi::parts::{Part, PartPlace, lay_geometries};
use wkb_abi::status::{NO_ROOM, OK};
use wkb_check::{Piece, Summary, check_plain};

/// Lists the parts of the geometry at the start of the bytes in preorder, and writes their number.
///
/// `NO_ROOM` writes their number too. A refusal leaves `parts` unchanged.
#[unsafe(no_mangle)]
pub extern "C" fn wkb_raw_parts(
    buf: &[u8],
    parts: &mut [Part],
    count: &mut u64,
    fault: &mut WkbFault,
) -> u32
    ensures listed { result ≡ OK → AreWritten (HasTable buf.now) parts.old parts.new count.new }
    ensures no_room { result ≡ NO_ROOM → FindsNoRoom (HasTable buf.now) parts.old count.new }
    ensures refused { IsRefusalStatus result → IsFault buf.now result fault.new }
    ensures known { IsStatusOfListing result }
    ensures parts_kept { result ≢ OK → parts.new ≡ parts.old }
    ensures count_kept { result ≢ OK → result ≢ NO_ROOM → count.new ≡ count.old }
    ensures fault_kept { IsNoRefusal result → fault.new ≡ fault.old }
{
    if let Some(found) = check_plain(buf) {
        return list_parts(buf, &found, parts, count);
    }
    match check_input(buf, fault) {
        Ok(found) => list_parts(buf, &found, parts, count),
        Err(status) => status,
    }
}

/// Lists the parts of the geometry at the start of bytes in which the check found this, and reports how many there are.
/// Without room nothing is laid. Most geometries of a column are their only part, which needs no walk.
#[tactic(auto, using(crate::proofs::Called::lacks_table))]
#[inline(always)]
pub fn list_parts(buf: &[u8], found: &Summary, parts: &mut [Part], count: &mut u64) -> u32
    requires accepted { DescribesFront buf.now found.now }
    ensures listed { result ≡ OK → AreWritten (HasTable buf.now) parts.old parts.new count.new }
    ensures no_room { result ≡ NO_ROOM → FindsNoRoom (HasTable buf.now) parts.old count.new }
    ensures known { (result ≡ OK) ⊎ (result ≡ NO_ROOM) }
    ensures long { length parts.new ≡ length parts.old }
    ensures parts_kept { result ≢ OK → parts.new ≡ parts.old }
{
    let entry = Part::of(&Piece::outermost(buf, found), found.bytes, 1);
    *count = found.parts as u64;
    if parts.len() < found.parts {
        return NO_ROOM;
    }
    if found.parts == 1 {
        parts[0] = entry;
        return OK;
    }
    lay_geometries(buf, 1, parts, PartPlace { index: 0, byte: 0 });
    OK
}
