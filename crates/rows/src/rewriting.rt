//! Inputs that are rewritten, and inputs that are compared.

use crate::line::Line;
use crate::notation::bytes;
use crate::reading::{show_error, show_same};
use std::alloc::Global;
use wkb::Endianness;
use wkb::error::WkbResult;
use wkb_cases::reading::rewritten_as;
use wkb_cases::support::iso;

/// Shows what an input was rewritten to.
pub fn show_encoding(line: &mut Line, answer: WkbResult<Vec<u8>>) {
    match answer {
        Ok(encoding) => line.show_bytes("", encoding.as_slice()),
        Err(error) => show_error(line, &error),
    }
}

/// Shows what an input that was rewritten big endian is rewritten to, little endian.
pub fn show_there_and_back(line: &mut Line, alloc: Global, input: &[u8]) {
    match rewritten_as(alloc, input, &iso(Endianness::BigEndian)) {
        Ok(big) => {
            let options = iso(Endianness::LittleEndian);
            show_encoding(line, rewritten_as(alloc, big.as_slice(), &options))
        }
        Err(error) => show_error(line, &error),
    }
}

/// Shows whether the two inputs around a `/` have equal values.
pub fn show_comparison(line: &mut Line, alloc: Global, inputs: &str) {
    let (first, second) = inputs.split_once('/').unwrap_or((inputs, ""));
    match (bytes(alloc, first), bytes(alloc, second)) {
        (Ok(first), Ok(second)) => show_same(line, alloc, first.as_slice(), second.as_slice()),
        _ => line.say("not spelled"),
    }
}
