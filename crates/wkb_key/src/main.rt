//! Prints a key for each geometry that comes as a line of hex.
#![tactic(auto)]

ghost use Rattle.std.specs.Prelude.{◌⊎◌, IfOk, IfErr};
ghost use Rattle.wkb.specs.Encodings.{IsRewritingWithSrid};
ghost use Rattle.wkb.specs.Prelude.{IsMemory};
ghost use Rattle.wkb.specs.Reads.{IsRefusal};

use std::alloc::Global;
use std::io;
use wkb::Endianness;
use wkb::canon::canonical_with_srid;
use wkb::error::WkbResult;

/// The bytes of the geometry in one byte order: equal for equal values with equal SRIDs.
fn key_with_srid(alloc: Global, bytes: &[u8], order: Endianness) -> WkbResult<Vec<u8>>
    ensures ok { IfOk result (λ key. IsRewritingWithSrid order bytes.now key.items) }
    ensures err { IfErr result (λ e. IsMemory e ⊎ IsRefusal bytes.now e) }
{
    canonical_with_srid(alloc, bytes, order)
}

fn main(rt: HostRuntime) -> io::Result<()> {
    let alloc = rt.alloc();
    for line in rt.lines(alloc) {
        let Ok(bytes) = hex::decode(alloc, line?.as_str()) else {
            println!(rt; "not hex")?;
            continue;
        };
        match key_with_srid(alloc, bytes.as_slice(), Endianness::LittleEndian) {
            Ok(key) => println!(rt; "{}", hex::encode(alloc, key.as_slice())?)?,
            Err(e) => println!(rt; "refused: {e}")?,
        }
    }
    Ok(())
}
