//! Sinks and writers that take little, or fail. They keep what they took, and allocate nothing for it.

ghost use Rattle.std.specs.Prelude.{◌≡◌, false};

use std::io;
use std::io::Write;
use wkb::writer::Sink;
use wkb_cases::spelled::Spelled;

/// The text of the error of a sink that is full.
pub const FULL: &str = "the disk is full";

/// What a sink takes before it fails.
#[derive(Clone, Copy)]
pub struct Limits {
    /// How many calls.
    pub puts: usize,
    /// How many bytes a call. If it is none, a call returns 0.
    pub most: usize,
    /// How many bytes in all.
    pub room: usize,
}

/// Takes what its limits say, and then fails by an error of its own.
#[derive(Drop)]
pub struct LimitedSink {
    pub taken: Spelled,
    left: Limits,
    has_failed: bool,
}

impl LimitedSink {
    pub fn new(limits: Limits) -> LimitedSink
        ensures { result.has_failed ≡ false }
    {
        LimitedSink {
            taken: Spelled::new(),
            left: limits,
            has_failed: false,
        }
    }
}

impl Sink for LimitedSink {
    ghost has_failed = { λ s. s.has_failed };

    fn put(&mut self, bytes: &[u8]) -> io::Result<usize> {
        if bytes.is_empty() {
            return Ok(0);
        }
        if self.left.most == 0 {
            self.has_failed = true;
            return Ok(0);
        }
        let n = bytes.len().min(self.left.most).min(self.left.room);
        if n == 0 || self.left.puts == 0 || !self.taken.append(&bytes[..n]) {
            self.has_failed = true;
            return Err(io::Error::new(io::ErrorKind::PermissionDenied, FULL));
        }
        self.left.puts -= 1;
        self.left.room -= n;
        Ok(n)
    }

    fn failed(&self) -> bool {
        self.has_failed
    }
}

/// Counts its writes, takes a few bytes of each, and is interrupted at one of them.
#[derive(Drop)]
pub struct LimitedWriter {
    pub taken: Spelled,
    pub writes: usize,
    most: usize,
    interrupted_at: Option<usize>,
}

impl LimitedWriter {
    /// A writer that takes `most` bytes of each write. The first write has the number 1.
    pub fn new(most: usize, interrupted_at: Option<usize>) -> LimitedWriter {
        LimitedWriter {
            taken: Spelled::new(),
            writes: 0,
            most,
            interrupted_at,
        }
    }
}

impl Write for LimitedWriter {
    fn write(&mut self, bytes: &[u8]) -> io::Result<usize> {
        self.writes = self.writes.saturating_add(1);
        if self.interrupted_at == Some(self.writes) {
            return Err(io::Error::from(io::ErrorKind::Interrupted));
        }
        let n = bytes.len().min(self.most);
        self.taken.write(&bytes[..n])
    }

    fn flush(&mut self) -> io::Result<()> {
        Ok(())
    }
}
