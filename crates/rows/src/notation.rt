//! How rows spell bytes.

use crate::line::Line;
use hex::FromHexError;
use std::alloc::Global;

/// The hex digits of 1.0 and 2.0, little endian.
const ONE_AND_TWO: &str = "000000000000f03f0000000000000040";

/// Appends the digits of a piece: those of its words, among which a `P` stands for 1.0 and 2.0.
fn spell_piece(line: &mut Line, piece: &str) {
    for word in piece.split_whitespace() {
        line.say(if word == "P" { ONE_AND_TWO } else { word });
    }
}

/// Appends the digits of a piece as often as the number before its `*` says, or once.
fn spell_repeated(line: &mut Line, piece: &str) {
    let (count, piece) = piece.split_once('*').unwrap_or(("1", piece));
    for _time in 0..count.trim().parse::<u32>().unwrap_or(0) {
        spell_piece(line, piece);
    }
}

/// Appends the digits of bytes, the pieces of which are separated by commas.
fn spell(line: &mut Line, text: &str) {
    for piece in text.split(',') {
        spell_repeated(line, piece);
    }
}

/// The bytes that a text spells.
pub fn bytes(alloc: Global, text: &str) -> Result<Vec<u8>, FromHexError> {
    let mut digits = Line::new(alloc);
    spell(&mut digits, text);
    hex::decode(alloc, digits.as_slice())
}

/// Appends a text in which each `<..>` becomes the hex digits of the bytes in it.
pub fn write_out(line: &mut Line, text: &str) {
    for piece in text.split('>') {
        let (words, spelled) = piece.split_once('<').unwrap_or((piece, ""));
        line.say(words);
        spell(line, spelled);
    }
}

/// Appends a text in which each `{..}` becomes the bytes in it.
fn write_text(line: &mut Line, alloc: Global, text: &str) -> Result<(), FromHexError> {
    for piece in text.split('}') {
        let (words, raw) = piece.split_once('{').unwrap_or((piece, ""));
        line.say(words);
        line.append(bytes(alloc, raw)?.as_slice());
    }
    Ok(())
}

/// What the program is given of an input: the hex digits of bytes, a line of hex for each of two inputs, and a text in
/// quotes as it is.
pub fn input_of_run(alloc: Global, input: &str) -> Result<Line, FromHexError> {
    let mut given = Line::new(alloc);
    if let Some(text) = input.strip_prefix('"') {
        write_text(&mut given, alloc, text.strip_suffix('"').unwrap_or(text))?;
    } else if let Some((first, second)) = input.split_once('/') {
        spell(&mut given, first);
        given.say("\n");
        spell(&mut given, second);
        given.say("\n");
    } else {
        spell(&mut given, input);
    }
    Ok(given)
}
