//! A line that is being written.

use std::alloc::Global;
use std::fmt::Debug;
use std::io::Write;
use std::str;

/// A line that is being written, or the input of a run. Its calls return no error: if an allocation failed,
/// `as_slice` says so in place of what was written.
#[derive(Drop)]
pub struct Line {
    bytes: Vec<u8>,
    is_whole: bool,
}

impl Line {
    /// An empty line.
    pub fn new(alloc: Global) -> Line {
        Line {
            bytes: Vec::new(alloc),
            is_whole: true,
        }
    }

    /// Appends these bytes.
    pub fn append(&mut self, bytes: &[u8]) {
        if self.bytes.extend_from_slice(bytes).is_err() {
            self.is_whole = false;
        }
    }

    /// Appends these words.
    pub fn say(&mut self, words: &str) {
        self.append(words.as_bytes());
    }

    /// Appends a value after its label.
    pub fn show<D: Debug + Drop>(&mut self, label: &str, value: D) {
        if write!(self.bytes, "{label}{value:?}").is_err() {
            self.is_whole = false;
        }
    }

    /// Appends the hex digits of bytes after their label.
    pub fn show_bytes(&mut self, label: &str, bytes: &[u8]) {
        self.say(label);
        for byte in bytes {
            if write!(self.bytes, "{byte:02x}").is_err() {
                self.is_whole = false;
            }
        }
    }

    /// Appends a word of a coordinate in hex, or None.
    pub fn show_word(&mut self, word: Option<u64>) {
        match word {
            Some(word) => self.show_bytes(" ", &word.to_be_bytes()),
            None => self.say(" None"),
        }
    }

    /// What was written, if no allocation failed.
    pub fn whole(&self) -> Option<&[u8]> {
        if self.is_whole {
            Some(self.bytes.as_slice())
        } else {
            None
        }
    }

    /// What was written.
    pub fn as_slice(&self) -> &[u8] {
        match self.whole() {
            Some(bytes) => bytes,
            None => b"out of memory",
        }
    }

    /// What was written, without spaces around it.
    pub fn as_str(&self) -> &str {
        str::from_utf8(self.as_slice()).unwrap_or("no text").trim()
    }
}
