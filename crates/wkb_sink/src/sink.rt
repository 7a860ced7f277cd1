//! Where bytes are written to.

ghost use Rattle.std.specs.Prelude.{◌≡◌, ◌||◌, ◌+◌, ◌≤◌, ◌-◌, min, ℕ, Bool, false, List, []};
ghost use Rattle.std.specs.Prelude.{length, take, Option, None, Some, IsOk, IfOk};
ghost use Rattle.std.specs.Prelude.{vec_capacity, ⊤, true, is_err, IfErr};
ghost use Rattle.std.specs.declared.io.Error.{Error};
ghost use Rattle.std.specs.Io.{WritesAtMost};
ghost use Rattle.std.specs.Io.KnownBytes.{WriteAppends};
ghost use Rattle.wkb_sink.specs.Held.{Outward, Growing, FitsCapacity, Lent};
ghost use Rattle.wkb_sink.specs.Sinks.{put_fails, put_whole, PutsWhole, KnownOfFailure, IsOutOfMemory};
ghost use Rattle.wkb_sink.specs.Sinks.{IsShortOfMemory};

use std::alloc::{AllocError, Global};
use std::io;
use std::io::Write;
use std::marker::Model;

/// The most bytes of an encoding that a `VecSink` takes in one piece. Longer ones arrive in blocks, since memory is
/// zeroed for a piece, which takes longer than blocks do where it doesn't fit the processor's caches.
// See docs/DECISIONS.md, D8.
pub const MAX_IN_PLACE: usize = 1 << 18;

/// Bytes that can be laid in a slice of their length, such as a geometry's encoding (`Sink::put_in_place`).
pub trait LayWhole {
    // The bytes.
    ghost bytes: { Self → List ℕ };

    /// How many there are.
    fn size(&self) -> usize
        ensures { result ≡ length (bytes self.now) };

    /// Lays them in a slice of this size.
    fn lay_whole(&self, slice: &mut [u8])
        requires size { length slice.old ≡ length (bytes self.now) }
        ensures bytes { slice.new ≡ bytes self.now };
}

/// A place for bytes, which may take a part of what it is given: `VecSink`, `SliceSink`, `Out` over any `Write`, or a
/// type of your own, which needs `put` and `failed` alone.
///
/// ```rust
/// let mut bytes = [0; 21];
/// let mut sink = SliceSink::new(&mut bytes);
/// write_point(&mut sink, &point, &WriteOptions::default())?;
/// assert_eq!(rt; sink.len(), 21);
/// ```
// A type of your own says what `has_failed` is and meets the clauses of `put`. It may leave out `appended`, which then
// promises nothing of bytes, `fails_by`, which then promises nothing of errors, and `put_in_place`.
pub trait Sink {
    // The bytes that were appended, where the sink tells them.
    ghost appended: { Self → Option (List ℕ) } = { λ _. None };

    // Whether the sink has failed.
    ghost has_failed: { Self → Bool };

    // What is known where the sink failed by this error, or, by no error, since it took nothing.
    ghost fails_by: { Self → Option Error → Type 0 } = { λ _ _. ⊤ };

    /// Appends as many of the first bytes as it takes, and returns how many.
    ///
    /// Fails by an error, with nothing appended, or by `Ok(0)` for a slice that isn't empty. A failure lasts.
    fn put(&mut self, bytes: &[u8]) -> io::Result<usize>
        ensures bound { WritesAtMost result bytes.now }
        ensures bytes { WriteAppends (appended self.old) (appended self.new) result bytes.now }
        ensures failure { has_failed self.new
            ≡ (has_failed self.old || put_fails bytes.now result) }
        ensures cause { KnownOfFailure bytes.now result (fails_by self.new) };

    /// Appends all of the bytes by laying them in the sink's own memory: `Ok(true)`. By default, and where a sink has
    /// no memory to lend, it appends nothing and stays as it was: `Ok(false)`. Writers then put block after block. An
    /// error means that an allocation failed: then nothing was appended, and the sink has failed.
    #[inline(always)]
    #[tactic(auto, using(crate::proofs::Appended::nothing_appended))]
    fn put_in_place<L: LayWhole>(&mut self, whole: &L) -> Result<bool, AllocError>
        ensures bytes { PutsWhole (appended self.old) (appended self.new) result
            (L.bytes whole.now) }
        ensures failure { has_failed self.new ≡ (has_failed self.old || is_err result) }
        ensures cause { IfErr result (λ _. IsShortOfMemory (fails_by self.new)) }
    {
        let _ = whole;
        Ok(false)
    }

    /// Whether a put has failed. Then at most a prefix was appended.
    fn failed(&self) -> bool
        ensures { result ≡ has_failed self.now };
}

/// Whether a put with this result failed: by an error, or by taking no byte of some.
#[inline]
fn is_failure(answer: &io::Result<usize>, bytes: &[u8]) -> bool
    ensures { result ≡ put_fails bytes.now answer.now }
{
    match answer {
        Ok(count) => *count == 0 && !bytes.is_empty(),
        Err(_) => true,
    }
}

/// A sink over a writer. Each put is one write, which isn't tried again where it was interrupted.
#[derive(Drop)]
pub struct Out<W> {
    writer: W,
    has_failed: bool,
}

impl<W> Model for Out<W> {
    ghost Value = { Outward W };

    ghost view = { λ o. record { writer = o.writer; failed = o.has_failed } };
}

impl<W: Write> Out<W> {
    /// A sink over this writer, with nothing written.
    pub fn new(writer: W) -> Out<W>
        ensures writer { result.writer ≡ writer }
        ensures failed { result.failed ≡ false }
    {
        Out {
            writer,
            has_failed: false,
        }
    }

    /// The writer, with all that was written to it.
    pub fn into_inner(self) -> W
        ensures { result ≡ self.writer }
    {
        self.writer
    }
}

impl<W: Write> Sink for Out<W> {
    ghost appended = { λ o. W.contents o.writer };

    ghost has_failed = { λ o. o.failed };

    fn put(&mut self, bytes: &[u8]) -> io::Result<usize> {
        let result = self.writer.write(bytes);
        self.has_failed |= is_failure(&result, bytes);
        result
    }

    fn failed(&self) -> bool {
        self.has_failed
    }
}

/// A sink in memory, which grows.
#[derive(Drop)]
pub struct VecSink {
    bytes: Vec<u8>,
    has_failed: bool,
}

impl Model for VecSink {
    ghost Value = { Growing };

    ghost view = { λ s. record {
      bytes = s.bytes.items;
      capacity = vec_capacity s.bytes;
      failed = s.has_failed;
    } };
}

impl VecSink {
    /// An empty sink, which allocates as bytes arrive.
    pub fn new(alloc: Global) -> VecSink
        ensures bytes { result.bytes ≡ [] }
        ensures failed { result.failed ≡ false }
    {
        VecSink {
            bytes: Vec::new(alloc),
            has_failed: false,
        }
    }

    /// A sink that takes its first `n` bytes without another allocation.
    ///
    /// Fails if the allocation does.
    pub fn with_capacity(alloc: Global, n: usize) -> Result<VecSink, AllocError>
        ensures bytes { IfOk result (λ s. s.bytes ≡ []) }
        ensures capacity { IfOk result (λ s. n ≤ s.capacity) }
        ensures failed { IfOk result (λ s. s.failed ≡ false) }
    {
        let bytes = Vec::with_capacity(alloc, n)?;
        Ok(VecSink {
            bytes,
            has_failed: false,
        })
    }

    /// The bytes that were put.
    pub fn into_vec(self) -> Vec<u8>
        ensures { result.items ≡ self.bytes }
    {
        self.bytes
    }
}

impl Sink for VecSink {
    ghost appended = { λ s. Some s.bytes };

    ghost has_failed = { λ s. s.failed };

    ghost fails_by = { λ _ failure. IsOutOfMemory failure };

    #[inline(always)]
    fn put(&mut self, bytes: &[u8]) -> io::Result<usize>
        ensures bound { WritesAtMost result bytes.now }
        ensures bytes { WriteAppends (Some self.old.bytes) (Some self.new.bytes) result bytes.now }
        ensures failure { self.new.failed
            ≡ (self.old.failed || put_fails bytes.now result) }
        ensures cause { KnownOfFailure bytes.now result IsOutOfMemory }
        ensures whole { IfOk result (λ n. n ≡ length bytes.now) }
        ensures room { FitsCapacity self.old bytes.now → IsOk result }
        ensures capacity { self.old.capacity ≤ self.new.capacity }
    {
        match self.bytes.extend_from_slice(bytes) {
            Ok(()) => Ok(bytes.len()),
            Err(e) => {
                self.has_failed = true;
                Err(io::Error::from(e))
            }
        }
    }

    #[inline(always)]
    fn put_in_place<L: LayWhole>(&mut self, whole: &L) -> Result<bool, AllocError>
        ensures bytes { PutsWhole (Some self.old.bytes) (Some self.new.bytes) result
            (L.bytes whole.now) }
        ensures failure { self.new.failed ≡ (self.old.failed || is_err result) }
        ensures whole { length (L.bytes whole.now) ≤ MAX_IN_PLACE
            → IfOk result (λ laid. laid ≡ true) }
        ensures room { FitsCapacity self.old (L.bytes whole.now) → IsOk result }
        ensures capacity { self.old.capacity ≤ self.new.capacity }
    {
        let size = whole.size();
        if size > MAX_IN_PLACE {
            return Ok(false);
        }
        let len = self.bytes.len();
        match self.bytes.resize(len + size, 0) {
            Ok(()) => {
                whole.lay_whole(&mut self.bytes[len..]);
                Ok(true)
            }
            Err(e) => {
                self.has_failed = true;
                Err(e)
            }
        }
    }

    fn failed(&self) -> bool {
        self.has_failed
    }
}

/// A sink over a borrowed slice, which takes as many bytes as fit. For a single geometry there is `write_to_slice`.
// No contract says what the slice holds after the sink is dropped; that of `write_to_slice` says it.
#[derive(Drop)]
pub struct SliceSink<'a> {
    slice: &'a mut [u8],
    len: usize,
    has_failed: bool,
}

impl<'a> Model for SliceSink<'a> {
    ghost Value = { Lent };

    ghost view = { λ s. record {
      bytes = take s.len s.slice.now;
      room = length s.slice.now - s.len;
      failed = s.has_failed;
    } };

    ghost invariant = { λ s. s.len ≤ length s.slice.now };
}

impl<'a> SliceSink<'a> {
    /// A sink that fills the slice from its start, and leaves what it doesn't fill as it was.
    pub fn new(slice: &'a mut [u8]) -> SliceSink<'a>
        ensures bytes { result.bytes ≡ [] }
        ensures room { result.room ≡ length slice.old }
        ensures failed { result.failed ≡ false }
    {
        SliceSink {
            slice,
            len: 0,
            has_failed: false,
        }
    }

    /// The number of bytes that were put.
    pub fn len(&self) -> usize
        ensures { result ≡ length self.now.bytes }
    {
        self.len
    }

    /// The bytes that were put.
    pub fn written(&self) -> &[u8]
        ensures { result.now ≡ self.now.bytes }
    {
        &self.slice[..self.len]
    }
}

impl Sink for SliceSink<'_> {
    ghost appended = { λ s. Some s.bytes };

    ghost has_failed = { λ s. s.failed };

    ghost fails_by = { λ _ failure. failure ≡ None };

    fn put(&mut self, bytes: &[u8]) -> io::Result<usize>
        ensures bound { WritesAtMost result bytes.now }
        ensures bytes { WriteAppends (Some self.old.bytes) (Some self.new.bytes) result bytes.now }
        ensures failure { self.new.failed
            ≡ (self.old.failed || put_fails bytes.now result) }
        ensures cause { KnownOfFailure bytes.now result (λ failure. failure ≡ None) }
        ensures most { IfOk result (λ n. n ≡ min (length bytes.now) self.old.room) }
        ensures room { IfOk result (λ n. self.new.room ≡ self.old.room - n) }
        ensures ok { IsOk result }
    {
        let room = self.slice.len() - self.len;
        let n = bytes.len().min(room);
        self.slice[self.len..self.len + n].copy_from_slice(&bytes[..n]);
        self.len += n;
        self.has_failed |= n == 0 && !bytes.is_empty();
        Ok(n)
    }

    #[inline(always)]
    fn put_in_place<L: LayWhole>(&mut self, whole: &L) -> Result<bool, AllocError>
        ensures bytes { PutsWhole (Some self.old.bytes) (Some self.new.bytes) result
            (L.bytes whole.now) }
        ensures failure { self.new.failed ≡ (self.old.failed || is_err result) }
        ensures cause { IfErr result (λ _. IsShortOfMemory (λ failure. failure ≡ None)) }
        ensures ok { IsOk result }
        ensures whole { length (L.bytes whole.now) ≤ self.old.room
            → IfOk result (λ laid. laid ≡ true) }
        ensures room { self.new.room
            ≡ self.old.room - length (put_whole result (L.bytes whole.now)) }
    {
        let size = whole.size();
        let fits = size <= self.slice.len() - self.len;
        if fits {
            whole.lay_whole(&mut self.slice[self.len..self.len + size]);
            self.len += size;
        }
        Ok(fits)
    }

    fn failed(&self) -> bool {
        self.has_failed
    }
}
