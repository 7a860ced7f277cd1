//! The worked cases that are bytes in and an answer out, as rows of data.
//!
//! A paragraph of the input names a case and gives its bytes, and each row below asks a question of them and gives the
//! answer, which was worked out by hand. The program answers the question by the public calls of `wkb`, or by a run of
//! the program `wkb_hex`. It prints the rows whose answers differ, and at the end how many rows there were. The head of
//! `stdin` says how a row is written.
//!
//! The first and the last row are wrong on purpose, and `stdout` holds their two reports before the last line. So it
//! shows if an input is empty or read by half, and if a wrong answer passes for a right one.
#![tactic(auto)]

mod command;
mod line;
mod members;
mod notation;
mod question;
mod reading;
mod rewriting;
mod rows;
mod view;

use rows::Rows;
use std::io;

/// Whether a line of the input continues the one before.
fn is_continuation(line: &str) -> bool {
    line.starts_with("      ")
}

fn main(rt: HostRuntime) -> io::Result<()> {
    let mut rows = Rows::new(rt.alloc());
    let mut entry = String::new(rt.alloc());
    for line in rt.lines(rt.alloc()) {
        let line = line?;
        if is_continuation(line.as_str()) {
            entry.push(' ')?;
            entry.push_str(line.as_str().trim())?;
        } else {
            rows.take(rt, entry.as_str())?;
            entry = line;
        }
    }
    rows.take(rt, entry.as_str())?;
    rows.print_counts(rt)
}
