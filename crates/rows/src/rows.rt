//! The rows of the input, one after the other.

use crate::line::Line;
use crate::notation::write_out;
use crate::question::show_answer;
use std::alloc::Global;
use std::io;

/// The paragraph that is being read, and how many rows there were before.
#[derive(Drop)]
pub struct Rows {
    /// The name of the paragraph's case.
    name: String,
    input: String,
    count: usize,
    /// How many rows had another answer than they expect.
    differing: usize,
}

/// What is before the first colon, and what is after it.
fn split_at_colon(text: &str) -> (&str, &str) {
    let (part, rest) = text.split_once(':').unwrap_or((text, ""));
    (part.trim(), rest.trim())
}

/// A question, and the input that it is asked of: its own, in brackets, or that of its paragraph.
fn asked<'t>(question: &'t str, input: &'t str) -> (&'t str, &'t str) {
    match question.split_once('(') {
        Some((question, own)) => (question.trim(), own.strip_suffix(')').unwrap_or(own)),
        None => (question, input),
    }
}

impl Rows {
    /// No rows yet.
    pub fn new(alloc: Global) -> Rows {
        Rows {
            name: String::new(alloc),
            input: String::new(alloc),
            count: 0,
            differing: 0,
        }
    }

    /// Takes a line of the input: a row if it is indented, and otherwise the head of a paragraph. Empty lines and those
    /// that begin with `#` are skipped.
    pub fn take(&mut self, rt: HostRuntime, line: &str) -> io::Result<()> {
        if line.is_empty() || line.starts_with('#') {
            return Ok(());
        }
        let (label, rest) = split_at_colon(line);
        if line.starts_with(' ') {
            return self.check(rt, label, rest);
        }
        self.name = String::from_str(rt.alloc(), label)?;
        self.input = String::from_str(rt.alloc(), rest)?;
        Ok(())
    }

    /// Counts a row, and reports it if its answer isn't the one that it expects.
    fn check(&mut self, rt: HostRuntime, question: &str, answer: &str) -> io::Result<()> {
        let mut expected = Line::new(rt.alloc());
        write_out(&mut expected, answer);
        let mut answered = Line::new(rt.alloc());
        let (asked, input) = asked(question, self.input.as_str());
        show_answer(&mut answered, rt.alloc(), asked, input);
        let (expected, answered) = (expected.as_str(), answered.as_str());
        self.count = self.count.saturating_add(1);
        if expected == answered {
            return Ok(());
        }
        self.differing = self.differing.saturating_add(1);
        let name = self.name.as_str();
        println!(rt; "{name} {question}: expected {expected}, answered {answered}")
    }

    /// Prints how many rows there were, and how many of them differ.
    pub fn print_counts(&self, rt: HostRuntime) -> io::Result<()> {
        let (count, differing) = (self.count, self.differing);
        println!(rt; "{count} rows, {differing} differ")
    }
}
