//! The calls on hex texts: each decodes its texts and asks for what they spell.
//!
//! A text is hex digits in either case, two for each byte. A failed allocation is always `HexFault::Memory`.

ghost use Rattle.std.specs.Prelude.{IfOk, IfErr};
ghost use Rattle.wkb_geom.specs.Encodings.{IsRewritingWithSrid};
ghost use Rattle.wkb.specs.Canonical.{IsRewritingUnder, IsRefusedUnder, IsPairRefusal};
ghost use Rattle.wkb.specs.Reads.{IsRefusal};
ghost use Rattle.wkb_command.specs.Readings.{HasSrid};
ghost use Rattle.wkb_command.specs.Calls.{IsHexOf, OfHex, OfTwoHexes, FailsOn, FailsOnTwo};
ghost use Rattle.wkb_command.specs.Calls.{AreCompared, IsCost, IsDecodingFailure};
ghost use Rattle.wkb_command.specs.Calls.{FailureOfError, FailureOfHexError};

use hex::FromHexError;
use std::alloc::Global;
use wkb::Endianness;
use wkb::canon::{canonical, canonical_with_srid, same};
use wkb::check::check;
use wkb::error::WkbError;
use wkb::reader::{Counts, read_wkb_counted};
use wkb::writer::WriteOptions;

/// Why a call on hex texts fails.
#[derive(Debug, Drop)]
pub enum HexFault {
    /// A character is no hex digit, or the digits are odd in number.
    NotHex,
    /// The bytes that the text spells are rejected.
    Wkb(WkbError),
    /// An allocation failed.
    Memory,
}

/// Whether an input is accepted, and what reading it cost.
#[derive(Debug, Clone, Copy, PartialEq)]
pub struct Cost {
    /// Whether the reader returned a geometry.
    pub accepted: bool,
    /// Parts begun and list entries asked for, up to the end or to the refusal.
    pub counts: Counts,
}

impl From<WkbError> for HexFault {
    ghost from_gives = { FailureOfError };

    fn from(error: WkbError) -> HexFault {
        match error {
            WkbError::Memory(_) => HexFault::Memory,
            other => HexFault::Wkb(other),
        }
    }
}

impl From<FromHexError> for HexFault {
    ghost from_gives = { FailureOfHexError };

    fn from(error: FromHexError) -> HexFault {
        match error {
            FromHexError::OutOfMemory => HexFault::Memory,
            _ => HexFault::NotHex,
        }
    }
}

/// The bytes that a text spells.
#[tactic(auto, using(crate::proofs::Failures::decode_failed))]
fn bytes_of_hex(alloc: Global, text: &str) -> Result<Vec<u8>, HexFault>
    ensures ok { IfOk result (λ bytes. IsHexOf text.now bytes.items) }
    ensures err { IfErr result (IsDecodingFailure text.now) }
{
    Ok(hex::decode(alloc, text)?)
}

/// The rewriting under the options of the geometry that a hex text spells.
///
/// `Wkb` is the reader's error, or `OverflowError(Size)` where the SRID of the options makes the
/// rewriting longer than `usize`.
pub fn rewrite_hex(alloc: Global, text: &str, options: &WriteOptions) -> Result<Vec<u8>, HexFault>
    ensures ok { IfOk result
        (λ it. OfHex text.now (λ b. IsRewritingUnder options.now b it.items)) }
    ensures err { IfErr result (FailsOn text.now (IsRefusedUnder options.now)) }
{
    let bytes = bytes_of_hex(alloc, text)?;
    Ok(canonical(alloc, bytes.as_slice(), options)?)
}

/// The rewriting under EWKB, with the geometry's own SRID where it has one.
///
/// `Wkb` is the reader's error.
pub fn rewrite_hex_with_srid(
    alloc: Global,
    text: &str,
    order: Endianness,
) -> Result<Vec<u8>, HexFault>
    ensures ok { IfOk result
        (λ it. OfHex text.now (λ b. IsRewritingWithSrid order b it.items)) }
    ensures err { IfErr result (FailsOn text.now IsRefusal) }
{
    let bytes = bytes_of_hex(alloc, text)?;
    Ok(canonical_with_srid(alloc, bytes.as_slice(), order)?)
}

/// Whether two hex texts spell geometries of the same value, SRIDs aside.
///
/// Both texts are decoded before a byte is read, the first text first. `Wkb` is the reader's
/// error for the first, or else for the second.
pub fn same_hex(alloc: Global, first: &str, second: &str) -> Result<bool, HexFault>
    ensures ok { IfOk result (λ equal. OfTwoHexes first.now second.now (AreCompared equal)) }
    ensures err { IfErr result (FailsOnTwo first.now second.now IsPairRefusal) }
{
    let first = bytes_of_hex(alloc, first)?;
    let second = bytes_of_hex(alloc, second)?;
    Ok(same(alloc, first.as_slice(), second.as_slice())?)
}

/// Whether the bytes that a hex text spells are accepted, and what it cost to read them.
///
/// A refusal is a result here, and no failure.
#[tactic(auto, using(crate::proofs::Costs::refused_cost))]
pub fn cost_hex(alloc: Global, text: &str) -> Result<Cost, HexFault>
    ensures ok { IfOk result (λ cost. OfHex text.now (IsCost cost)) }
    ensures err { IfErr result (FailsOn text.now (λ bytes e. ⊥)) }
{
    let bytes = bytes_of_hex(alloc, text)?;
    let (read, counts) = read_wkb_counted(alloc, bytes.as_slice());
    match read.err() {
        None => Ok(Cost {
            accepted: true,
            counts,
        }),
        Some(WkbError::Memory(_)) => Err(HexFault::Memory),
        Some(_) => Ok(Cost {
            accepted: false,
            counts,
        }),
    }
}

/// The SRID of the outermost geometry that a hex text spells, where it has one.
pub fn srid_hex(alloc: Global, text: &str) -> Result<Option<u32>, HexFault>
    ensures ok { IfOk result (λ srid. OfHex text.now (λ bytes. HasSrid bytes srid)) }
    ensures err { IfErr result (FailsOn text.now IsRefusal) }
{
    let bytes = bytes_of_hex(alloc, text)?;
    match check(bytes.as_slice()) {
        Ok(found) => Ok(found.srid),
        Err(refused) => Err(WkbError::from(refused.cause).into()),
    }
}
