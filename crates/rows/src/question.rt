//! What a row can ask, by its words.

use crate::command::show_run;
use crate::line::Line;
use crate::members::show_members;
use crate::notation::bytes;
use crate::reading::{
    show_counts, show_error, show_front, show_geometry, show_reading, show_sizes,
};
use crate::rewriting::{show_comparison, show_encoding, show_there_and_back};
use crate::view::show_view;
use std::alloc::Global;
use wkb::Endianness;
use wkb::reader::Wkb;
use wkb::writer::{Form, WriteOptions};
use wkb_cases::reading::{read, rewritten_as, with_own_srid};

/// The options of a rewriting, where the words name it.
fn options_named(words: &str) -> Option<WriteOptions> {
    let (form, endianness) = match words {
        "iso le" => (Form::Iso, Endianness::LittleEndian),
        "iso be" => (Form::Iso, Endianness::BigEndian),
        "ewkb le" => (Form::Ewkb { srid: None }, Endianness::LittleEndian),
        "ewkb be" => (Form::Ewkb { srid: None }, Endianness::BigEndian),
        "ewkb 4326 le" => (Form::Ewkb { srid: Some(4326) }, Endianness::LittleEndian),
        "ewkb 4326 be" => (Form::Ewkb { srid: Some(4326) }, Endianness::BigEndian),
        _ => return None,
    };
    Some(WriteOptions { endianness, form })
}

/// Answers what is asked of a geometry.
fn show_of_geometry(line: &mut Line, question: &str, wkb: &Wkb<'_>) {
    match question {
        "geometry" => show_geometry(line, wkb),
        "view" => show_view(line, wkb),
        "counts" => show_counts(line, wkb),
        "members" => show_members(line, wkb),
        "sizes" => show_sizes(line, wkb),
        _ => line.say("no such question"),
    }
}

/// Answers what is asked of the geometry at the start of some bytes; of rejected bytes by the fault.
fn show_of_front(line: &mut Line, alloc: Global, question: &str, input: &[u8]) {
    match read(alloc, input) {
        Ok(wkb) => show_of_geometry(line, question, &wkb),
        Err(error) => show_error(line, &error),
    }
}

/// Answers what is asked of some bytes.
fn show_of_bytes(line: &mut Line, alloc: Global, question: &str, input: &[u8]) {
    if let Some(options) = options_named(question) {
        return show_encoding(line, rewritten_as(alloc, input, &options));
    }
    match question {
        "read" => show_reading(line, alloc, input),
        "be then le" => show_there_and_back(line, alloc, input),
        "front" => show_front(line, alloc, input),
        "own srid le" => {
            show_encoding(line, with_own_srid(alloc, input, Endianness::LittleEndian))
        }
        "own srid be" => show_encoding(line, with_own_srid(alloc, input, Endianness::BigEndian)),
        _ => show_of_front(line, alloc, question, input),
    }
}

/// Answers a question.
pub fn show_answer(line: &mut Line, alloc: Global, question: &str, input: &str) {
    if let Some(words) = question.strip_prefix("run") {
        return show_run(line, alloc, words, input);
    }
    if question == "same" {
        return show_comparison(line, alloc, input);
    }
    match bytes(alloc, input) {
        Ok(input) => show_of_bytes(line, alloc, question, input.as_slice()),
        Err(_) => line.say("not spelled"),
    }
}
