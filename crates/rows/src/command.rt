//! Runs of the program.

use crate::line::Line;
use crate::notation::input_of_run;
use std::alloc::{AllocError, Global};
use std::io::{Read, Write};
use wkb_command::program::run;

/// The arguments of a run.
fn arguments(alloc: Global, words: &str) -> Result<Vec<String>, AllocError> {
    let mut arguments = Vec::new(alloc);
    for word in words.split_whitespace() {
        arguments.push(String::from_str(alloc, word)?)?;
    }
    Ok(arguments)
}

/// The status of a run. It is generic and has no clauses, so that its caller reads few facts.
fn status_of<R: Read, W: Write>(alloc: Global, words: &[String], input: &mut R, out: &mut W) -> u8 {
    run(alloc, words, input, out)
}

/// Shows the status of a run, and the line that it wrote.
fn show_outcome(line: &mut Line, alloc: Global, words: &[String], input: &Line) {
    let Some(mut reader) = input.whole() else {
        return line.say("out of memory");
    };
    let mut out = Vec::new(alloc);
    line.show("", status_of(alloc, words, &mut reader, &mut out));
    line.say(" ");
    match out.as_slice().strip_suffix(b"\n") {
        Some(written) => line.append(written),
        None => line.say("no line"),
    }
}

/// Shows how a run with these words ends on an input.
pub fn show_run(line: &mut Line, alloc: Global, words: &str, input: &str) {
    match (arguments(alloc, words), input_of_run(alloc, input)) {
        (Ok(words), Ok(input)) => show_outcome(line, alloc, words.as_slice(), &input),
        _ => line.say("not spelled"),
    }
}
