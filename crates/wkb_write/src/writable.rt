//! What each kind says of itself, and what follows from it: a size, a writer, and an encoding in a vector.

ghost use Rattle.std.specs.Prelude.{◌≡◌, ◌≤◌, ◌<◌, ◌^◌, false, length, None, IfOk, IfErr};
ghost use Rattle.std.specs.Prelude.{IsErrAnd};
ghost use Rattle.wkb_write.specs.Prelude.{Geometry, IsGeometry, fault, encoding_of};
ghost use Rattle.wkb_write.specs.Prelude.{IsForm, IsMeasured, IsSized, IsSizeOf, IsMemory};
ghost use Rattle.wkb_write.specs.Prelude.{Lays, PutsGeometry, TellsPut, CopiesTo, WritesTo, WritesToVec};
ghost use Rattle.wkb_write.specs.Prelude.{TellsFailure, MIN_BLOCK, result_of};

use crate::checked::Checked;
use crate::measure::{Measured, refuse, size_of, whole_size};
use crate::{Sink, VecSink, WriteOptions};
use std::alloc::{AllocError, Global};
use std::io;
use std::io::ErrorKind;
use std::marker::PhantomData;
use wkb_geom::{Fault, Form, WkbError, WkbResult};
use wkb_sink::block::MIN_BLOCK;
use wkb_sink::buffered::put_all;
use wkb_sink::options::length_of_header;
use wkb_sink::{Buffered, MAX_IN_PLACE, Stopped};

/// The result of putting: nothing, or the sink stopped.
pub type Put = Result<(), Stopped>;

/// How the geometries of a kind are measured and put.
pub trait Writable<G> {
    // What a geometry means.
    ghost geometry: { G → Geometry };

    /// The size without the header, or the first fault.
    fn measure(geom: &G) -> Measured
        ensures { IsMeasured (geometry geom.now) (result_of result) };

    /// Puts a geometry that has no fault.
    fn put<S: Sink>(out: &mut Buffered<'_, S>, geom: &G, options: &WriteOptions) -> Put
        requires fault { fault (geometry geom.now) ≡ None }
        requires working { S.has_failed out.old.sink.now ≡ false }
        ensures { Lays S.Sink out.old out.new (encoding_of options.now (geometry geom.now))
            result };

    // Every coordinate fits the dimension.
    ghost lawful: { (g : G) → IsGeometry (geometry g) };
}

/// Zeroing a block takes time in proportion to its size, so short encodings get the smallest one
/// (docs/DECISIONS.md, D8).
const LARGE_BLOCK: usize = 1024;

/// Puts a geometry through a block over these bytes, and then what still waits there.
#[inline(always)]
fn put_through<S: Sink, G, K: Writable<G>>(
    writer: &mut S,
    bytes: &mut [u8],
    geom: &G,
    options: &WriteOptions,
) -> Result<(), Option<io::Error>>
    requires least { MIN_BLOCK ≤ length bytes.old }
    requires fault { fault (K.geometry geom.now) ≡ None }
    requires working { S.has_failed writer.old ≡ false }
    ensures { PutsGeometry S.Sink writer.old writer.new options.now (K.geometry geom.now) result }
{
    let error = None;
    let mut out = Buffered {
        sink: writer,
        bytes,
        len: 0,
        error,
    };
    let put = match K::put(&mut out, geom, options) {
        Ok(()) => out.flush(),
        Err(Stopped) => Err(Stopped),
    };
    // The error is large, so it is only moved where the sink failed.
    match put {
        Ok(()) => {
            let Buffered {
                sink: _sink,
                bytes: _,
                len: _,
                error: _,
            } = out;
            Ok(())
        }
        Err(Stopped) => {
            let error = out.error;
            let Buffered {
                sink: _sink,
                bytes: _,
                len: _,
                error: _,
            } = out;
            Err(error)
        }
    }
}

/// Puts a geometry of this size: in the sink's own memory, or through a block that suits the size.
#[inline(always)]
#[tactic(auto, using(crate::proofs::Writing::put_laws))]
pub fn put_sized<S: Sink, G, K: Writable<G>>(
    writer: &mut S,
    size: usize,
    geom: &G,
    options: &WriteOptions,
) -> Result<(), Option<io::Error>>
    requires fault { fault (K.geometry geom.now) ≡ None }
    requires size { size ≡ length (encoding_of options.now (K.geometry geom.now)) }
    requires some { 0 < size }
    requires working { S.has_failed writer.old ≡ false }
    ensures { PutsGeometry S.Sink writer.old writer.new options.now (K.geometry geom.now) result }
{
    let whole = Checked {
        geom,
        options,
        size,
        kind: PhantomData::<K>,
    };
    match writer.put_in_place(&whole) {
        Ok(true) => Ok(()),
        Ok(false) => {
            if size <= MIN_BLOCK {
                put_through::<S, G, K>(writer, &mut [0; MIN_BLOCK], geom, options)
            } else {
                put_through::<S, G, K>(writer, &mut [0; LARGE_BLOCK], geom, options)
            }
        }
        Err(error) => Err(Some(io::Error::from(error))),
    }
}

/// The size of a geometry of a kind, under the form.
#[inline(always)]
pub fn size_as<G, K: Writable<G>>(geom: &G, form: Form) -> WkbResult<usize>
    ensures { IsSizeOf form (K.geometry geom.now) result }
{
    size_of(K::measure(geom), form)
}

/// Measures a geometry of a kind: the size of its encoding under the form, or the fault for which there is none.
#[inline(always)]
pub fn checked_size<G, K: Writable<G>>(geom: &G, form: Form) -> Result<usize, Fault>
    ensures size { IsSized form (K.geometry geom.now) result }
    ensures fault { IfOk result (λ _. fault (K.geometry geom.now) ≡ None) }
    ensures some { IfOk result (λ size. 0 < size) }
    ensures fits { IsForm form }
    ensures lawful { IsGeometry (K.geometry geom.now) }
{
    whole_size(K::measure(geom), form)
}

/// Writes a geometry of a kind: measures the whole of it, and then puts it.
#[inline(always)]
#[tactic(auto, using(crate::proofs::Writing::refusal_writes))]
pub fn write_as<S: Sink, G, K: Writable<G>>(
    writer: &mut S,
    geom: &G,
    options: &WriteOptions,
) -> WkbResult<()>
    requires { S.has_failed writer.old ≡ false }
    ensures { WritesTo S.Sink writer.old writer.new options.now (K.geometry geom.now) result }
{
    // A copy, which no byte that is laid can change: so it is read once.
    let options = *options;
    // A refusal leaves the sink untouched (docs/DECISIONS.md, D6).
    match checked_size::<G, K>(geom, options.form) {
        Ok(size) => wkb_result(put_sized::<S, G, K>(writer, size, geom, &options)),
        Err(fault) => refuse(fault),
    }
}

/// The writer's result: where the sink failed, the sink's own error, or that it took no byte.
#[inline(always)]
pub fn wkb_result(put: Result<(), Option<io::Error>>) -> WkbResult<()>
    ensures { TellsPut put result }
{
    match put {
        Ok(()) => Ok(()),
        Err(failure) => sink_error(failure),
    }
}

/// The sink's own error, or that it took no byte.
#[inline(always)]
pub fn sink_error<T>(failure: Option<io::Error>) -> WkbResult<T>
    ensures { IsErrAnd result (λ e. TellsFailure e failure) }
{
    match failure {
        Some(error) => Err(WkbError::IOError(error)),
        None => Err(WkbError::IOError(io::Error::from(ErrorKind::WriteZero))),
    }
}

/// The encoding of a geometry of a kind, in a vector that is allocated in its full size.
#[inline(always)]
pub fn vec_as<G, K: Writable<G>>(
    alloc: Global,
    geom: &G,
    options: &WriteOptions,
) -> WkbResult<Vec<u8>>
    ensures { WritesToVec options.now (K.geometry geom.now) result }
{
    let size = match checked_size::<G, K>(geom, options.form) {
        Ok(size) => size,
        Err(fault) => return refuse(fault),
    };
    if size <= MAX_IN_PLACE {
        // As `put_in_place` of a `VecSink`, with fewer instructions.
        let mut bytes = vec![in alloc; 0u8; size]?;
        lay_whole::<G, K>(&mut bytes, geom, options);
        return Ok(bytes);
    }
    let mut sink = VecSink::with_capacity(alloc, size)?;
    match put_sized::<VecSink, G, K>(&mut sink, size, geom, options) {
        Ok(()) => Ok(sink.into_vec()),
        // This sink fails only if an allocation does.
        Err(_) => Err(WkbError::from(AllocError)),
    }
}

/// A sink that takes nothing.
#[derive(Drop)]
struct Full {
    has_failed: bool,
}

impl Sink for Full {
    ghost has_failed = { λ f. f.has_failed };

    fn put(&mut self, bytes: &[u8]) -> io::Result<usize> {
        self.has_failed |= !bytes.is_empty();
        Ok(0)
    }

    fn failed(&self) -> bool {
        self.has_failed
    }
}

/// Lays a geometry in a slice that is as long as its encoding.
#[inline(always)]
#[tactic(auto, using(wkb_sink::proofs::Laid::fills_slice))]
pub fn lay_whole<G, K: Writable<G>>(bytes: &mut [u8], geom: &G, options: &WriteOptions)
    requires fault { fault (K.geometry geom.now) ≡ None }
    requires size { length bytes.old ≡ length (encoding_of options.now (K.geometry geom.now)) }
    ensures { bytes.new ≡ encoding_of options.now (K.geometry geom.now) }
{
    let mut sink = Full { has_failed: false };
    let error = None;
    let mut out = Buffered {
        sink: &mut sink,
        bytes,
        len: 0,
        error,
    };
    match K::put(&mut out, geom, options) {
        Ok(()) => {
            let Buffered {
                sink: _,
                bytes: _bytes,
                len: _,
                error: _,
            } = out;
        }
        // The slice has room for the whole encoding.
        Err(Stopped) => unreachable!(),
    }
}

/// The number of bytes. That it fits `usize` is seen in proofs only by this clause.
#[inline(always)]
pub fn length(bytes: &[u8]) -> usize
    ensures len { result ≡ length bytes.now }
    ensures fits { length bytes.now < 2 ^ 64 }
{
    bytes.len()
}

/// Writes an encoding that is in memory.
#[inline(always)]
pub fn write_encoding<S: Sink>(
    writer: &mut S,
    bytes: &[u8],
    options: &WriteOptions,
) -> WkbResult<()>
    requires working { S.has_failed writer.old ≡ false }
    ensures { CopiesTo S.Sink writer.old writer.new options.now bytes.now result }
{
    // These two calls stand for the proof alone: the SRID of the form, and the length, fit.
    length_of_header(options.form);
    length(bytes);
    wkb_result(put_all(writer, bytes))
}

/// An encoding that is in memory, in a vector.
#[inline(always)]
pub fn vec_of_encoding(alloc: Global, bytes: &[u8]) -> WkbResult<Vec<u8>>
    ensures ok { IfOk result (λ out. out.items ≡ bytes.now) }
    ensures err { IfErr result IsMemory }
    ensures fits { length bytes.now < 2 ^ 64 }
{
    // For the proof alone: the length fits.
    length(bytes);
    Ok(Vec::from_slice(alloc, bytes)?)
}
