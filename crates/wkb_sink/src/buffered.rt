//! Bytes to a sink, by blocks.

ghost use Rattle.std.specs.Prelude.{◌≡◌, ◌≤◌, false, length};
ghost use Rattle.wkb_sink.specs.Puts.{PutsTo};

use crate::block::{MIN_BLOCK, lay, lay_count, lay_header};
use crate::options::length_of_header;
use crate::{Sink, WriteOptions};
use std::io;
use wkb_geom::Endianness;
use wkb_geom::code::WkbType;
use wkb_geom::words::COUNT_SIZE;

/// The sink failed. The error, if it had one, is kept in `Buffered`: an `io::Error` is too large to be passed on by
/// each step.
#[derive(Clone, Copy)]
pub struct Stopped;

/// A sink, the block in front of it, whose first bytes have not reached the sink yet, and the error by which the sink
/// failed.
#[derive(Drop)]
pub struct Buffered<'a, S: Sink> {
    pub sink: &'a mut S,
    pub bytes: &'a mut [u8],
    pub len: usize,
    pub error: Option<io::Error>,
    ghost in_range: { len ≤ length bytes.now },
}

/// Puts all of the bytes, or as many as the sink takes before it fails. It fails by an error, or by taking no byte.
#[inline(always)]
pub fn put_all<S: Sink>(sink: &mut S, bytes: &[u8]) -> Result<(), Option<io::Error>>
    requires { S.has_failed sink.old ≡ false }
    ensures { PutsTo S.Sink sink.old sink.new bytes.now result }
{
    let mut rest = bytes;
    while !rest.is_empty() {
        match sink.put(rest) {
            Ok(0) => return Err(None),
            Ok(n) => rest = &rest[n..],
            Err(e) => return Err(Some(e)),
        }
    }
    Ok(())
}

impl<'a, S: Sink> Buffered<'a, S> {
    ghost use Rattle.std.specs.Prelude.{◌≡◌, ◌+◌, ◌≤◌, ◌<◌, [], false, length, IfOk};
    ghost use Rattle.wkb_geom.specs.Numbers.{number_bytes};
    ghost use Rattle.wkb_sink.specs.Options.{counted_header};
    ghost use Rattle.wkb_sink.specs.Progress.{Lays, Readies, held};
    ghost use Rattle.wkb_sink.specs.declared.block.TheConstants.{MIN_BLOCK};

    /// The number of bytes for which the block has room.
    #[inline]
    pub fn room(&self) -> usize
        ensures { result ≡ (held self.now).room }
    {
        self.bytes.len() - self.len
    }

    /// Puts what waits. Inlined, so that a block and an error that no other call borrows need no memory.
    #[inline(always)]
    #[tactic(auto, using(crate::proofs::Steps::flush_laws))]
    pub fn flush(&mut self) -> Result<(), Stopped>
        requires { S.has_failed self.old.sink.now ≡ false }
        ensures ready { Readies S.Sink self.old self.new ((held self.old).room + 1) result }
        ensures empty { IfOk result (λ _. (held self.new).waiting ≡ []) }
    {
        match put_all(self.sink, &self.bytes[..self.len]) {
            Ok(()) => {
                self.len = 0;
                Ok(())
            }
            Err(error) => {
                self.error = error;
                Err(Stopped)
            }
        }
    }

    /// Flushes, and fails if even an empty block has no room for `n`. Inlined, so that `lay_whole`, which has no real
    /// sink, keeps the block in registers.
    #[inline]
    #[tactic(auto, using(crate::proofs::Steps::room_laws))]
    fn flush_for(&mut self, n: usize) -> Result<(), Stopped>
        requires fits { n ≤ MIN_BLOCK }
        requires short { (held self.old).room < n }
        requires working { S.has_failed self.old.sink.now ≡ false }
        ensures ready { Readies S.Sink self.old self.new n result }
        ensures room { IfOk result (λ _. n ≤ (held self.new).room) }
    {
        self.flush()?;
        if self.room() < n {
            return Err(Stopped);
        }
        Ok(())
    }

    /// Makes sure that the block has room for `n` bytes.
    #[inline]
    #[tactic(auto, using(crate::proofs::Steps::room_laws))]
    pub fn make_room(&mut self, n: usize) -> Result<(), Stopped>
        requires fits { n ≤ MIN_BLOCK }
        requires working { S.has_failed self.old.sink.now ≡ false }
        ensures ready { Readies S.Sink self.old self.new n result }
        ensures room { IfOk result (λ _. n ≤ (held self.new).room) }
    {
        if self.room() < n {
            self.flush_for(n)
        } else {
            Ok(())
        }
    }

    /// Puts bytes as they are: through the block where they fit, else what waits and then the bytes past the block.
    #[inline]
    #[tactic(auto, using(crate::proofs::Steps::step_laws))]
    pub fn put_bytes(&mut self, bytes: &[u8]) -> Result<(), Stopped>
        requires working { S.has_failed self.old.sink.now ≡ false }
        ensures { Lays S.Sink self.old self.new bytes.now result }
    {
        if bytes.len() <= self.room() {
            self.len = lay(self.bytes, self.len, bytes);
            Ok(())
        } else {
            self.put_past(bytes)
        }
    }

    /// Puts what waits. Then the bytes go into the block, or straight to the sink where they are longer than the block.
    #[inline(never)]
    #[tactic(auto, using(crate::proofs::Steps::past_laws))]
    fn put_past(&mut self, bytes: &[u8]) -> Result<(), Stopped>
        requires long { (held self.old).room < length bytes.now }
        requires working { S.has_failed self.old.sink.now ≡ false }
        ensures { Lays S.Sink self.old self.new bytes.now result }
    {
        self.flush()?;
        if bytes.len() <= self.room() {
            self.len = lay(self.bytes, self.len, bytes);
            return Ok(());
        }
        match put_all(self.sink, bytes) {
            Ok(()) => Ok(()),
            Err(error) => {
                self.error = error;
                Err(Stopped)
            }
        }
    }

    /// Puts a count.
    #[tactic(auto, using(crate::proofs::Steps::count_laws))]
    pub fn put_count(&mut self, order: Endianness, n: u32) -> Result<(), Stopped>
        requires working { S.has_failed self.old.sink.now ≡ false }
        ensures { Lays S.Sink self.old self.new (number_bytes order 4 n) result }
    {
        self.make_room(COUNT_SIZE)?;
        self.len = lay_count(self.bytes, self.len, order, n);
        Ok(())
    }

    /// Puts a header of this code, and a count.
    #[inline]
    #[tactic(auto, using(crate::proofs::Steps::count_laws, crate::proofs::Behind::behind))]
    pub fn put_head(
        &mut self,
        options: &WriteOptions,
        wkb_type: WkbType,
        n: u32,
    ) -> Result<(), Stopped>
        requires working { S.has_failed self.old.sink.now ≡ false }
        ensures { Lays S.Sink self.old self.new (counted_header options.now wkb_type n) result }
    {
        self.make_room(length_of_header(options.form) + COUNT_SIZE)?;
        let end = lay_header(self.bytes, self.len, options, wkb_type);
        self.len = lay_count(self.bytes, end, options.endianness, n);
        Ok(())
    }
}
