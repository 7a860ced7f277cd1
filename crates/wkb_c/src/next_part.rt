//! The parts of any bytes, one after another: also those before a fault.

ghost use Rattle.std.specs.Prelude.{◌≡◌, is_some, if◌then◌else◌};
ghost use Rattle.wkb_c.specs.NextPart.{piece_after, entry_after};

use wkb_abi::parts::Part;
use wkb_check::NextPiece;
use wkb_geom::{Dimension, Endianness};

/// Replaces a part by the one after it, if that is there up to its rings or members. Returns 1 if it is, else 0.
///
/// After a part of zeros comes the first one. `end` is that of the part's own bytes, and `next` counts the rings to
/// come.
#[unsafe(no_mangle)]
pub extern "C" fn wkb_raw_next_part(buf: &[u8], part: &mut Part) -> u32
    ensures moved { part.new ≡ entry_after buf.now part.old (piece_after buf.now part.old) }
    ensures found { result ≡ if is_some (piece_after buf.now part.old) then 1 else 0 }
{
    let mut place = NextPiece {
        at: part.end.min(buf.len() as u64) as usize,
        rings: part.next.min(u32::MAX as u64) as u32,
        order: if part.order == 0 {
            Endianness::BigEndian
        } else {
            Endianness::LittleEndian
        },
        dimension: Dimension::of_thousands(part.dimension).unwrap_or(Dimension::Xy),
    };
    match place.take(buf) {
        Some(piece) => {
            *part = Part::of(&piece, place.at, place.rings as usize);
            1
        }
        None => 0,
    }
}
