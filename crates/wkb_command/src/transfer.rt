//! Reading an input to its end, and writing a text whole.

ghost use Rattle.std.specs.Prelude.{◌≡◌, ◌≤◌, ◌*◌, IfOk, IfSome, length, take};
ghost use Rattle.hex.specs.Hex.{encode_lower};
ghost use Rattle.wkb_command.specs.Transfer.{WroteBeginning};
ghost use Rattle.wkb_command.specs.Program.{hex_line};

use std::alloc::{AllocError, Global};
use std::io::{Read, Write};

/// The most reads of one input.
const MAX_READS: u32 = 16_777_216;

const CHUNK_SIZE: usize = 65_536;

/// How many bytes are encoded at once.
const PIECE_SIZE: usize = 32_768;

/// The digits of a piece, and a line feed.
const DIGITS_SIZE: usize = 65_537;

/// Why an input isn't in memory.
#[derive(Drop)]
pub enum ReadFailure {
    /// A read failed, or `MAX_READS` reads did not reach the end.
    Unreadable,
    Memory(AllocError),
}

/// The writer failed, or took nothing.
#[derive(Clone, Copy)]
pub struct WriteFailure;

/// All bytes up to the input's end. No read is tried again.
pub fn read_to_end<R: Read>(alloc: Global, input: &mut R) -> Result<Vec<u8>, ReadFailure>
    ensures { IfOk result (λ bytes. IfSome (R.remaining input.old) (λ all. bytes.items ≡ all)) }
{
    let mut bytes = Vec::new(alloc);
    let mut chunk = [0u8; CHUNK_SIZE];
    for _ in 0..MAX_READS {
        let Ok(count) = input.read(&mut chunk) else {
            return Err(ReadFailure::Unreadable);
        };
        if count == 0 {
            return Ok(bytes);
        }
        if let Err(error) = bytes.extend_from_slice(&chunk[..count]) {
            return Err(ReadFailure::Memory(error));
        }
    }
    Err(ReadFailure::Unreadable)
}

/// Writes all bytes, going on with the rest after a short write. No write is tried again.
pub fn write_whole<W: Write>(out: &mut W, bytes: &[u8]) -> Result<(), WriteFailure>
    ensures { WroteBeginning (W.contents out.old) (W.contents out.new) bytes.now result }
{
    let mut rest = bytes;
    while !rest.is_empty() {
        // At an error it took nothing.
        let count = out.write(rest).unwrap_or(0);
        if count == 0 {
            return Err(WriteFailure);
        }
        rest = &rest[count..];
    }
    Ok(())
}

/// Encodes a piece into the first digits.
fn encode_piece(piece: &[u8], digits: &mut [u8])
    requires { 2 * length piece.now ≤ length digits.old }
    ensures hex { take (2 * length piece.now) digits.new ≡ encode_lower piece.now }
    ensures room { length digits.new ≡ length digits.old }
{
    let Ok(()) = hex::encode_to_slice(piece, &mut digits[..2 * piece.len()]) else {
        unreachable!();
    };
}

/// Writes bytes as a line of hex, piece by piece. It allocates nothing.
pub fn write_hex_line<W: Write>(out: &mut W, bytes: &[u8]) -> Result<(), WriteFailure>
    ensures { WroteBeginning (W.contents out.old) (W.contents out.new) (hex_line bytes.now) result }
{
    let mut digits = [0u8; DIGITS_SIZE];
    let mut rest = bytes;
    while rest.len() > PIECE_SIZE {
        let (piece, after) = rest.split_at(PIECE_SIZE);
        encode_piece(piece, &mut digits);
        write_whole(out, &digits[..2 * piece.len()])?;
        rest = after;
    }
    encode_piece(rest, &mut digits);
    let end = 2 * rest.len();
    digits[end] = b'\n';
    write_whole(out, &digits[..end + 1])
}
