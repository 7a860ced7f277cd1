//! The errors of reading and writing. A refusal is a value of fixed size (docs/DECISIONS.md, D2).

ghost use Rattle.std.specs.Prelude.{◌≡◌};
ghost use Rattle.wkb_geom.specs.declared.error.WkbError.TheVariants.{IOError, Memory};
ghost use Rattle.wkb_geom.specs.declared.error.ReadError.TheVariants as read_errors;
ghost use Rattle.wkb_geom.specs.Errors.{IsMemory, Tells, TellsFault, TellsReadError};

use std::alloc::{AllocError, AllocFailed};
use std::io;
use thiserror::Error;

/// How many collections may be open at once: one more is `Cause::NestingDepthExceeded`.
pub const MAX_NESTING: usize = 128;

/// A fault of the bytes, or of a geometry's dimension.
#[derive(Debug, Clone, Copy, PartialEq, Error)]
pub enum General {
    /// A geometry to be written has this many numbers in a coordinate, and its dimension has no name.
    #[error("Unsupported number of dimensions: {0}")]
    UnsupportedDimensions(usize),
    /// The whole code as read, flags included, which isn't in the table.
    #[error("WKB type code out of range. Got: {0}")]
    CodeOutOfRange(u32),
    /// The first byte of a geometry is neither 0 nor 1.
    #[error("Invalid byte order")]
    InvalidByteOrder,
    /// Where the point would end and where the input does, in bytes from the point's order byte.
    #[error("Invalid buffer length for Point: geometry would end at byte {end}, but buffer length is {len}.")]
    ShortPoint {
        /// Where it would end.
        end: u64,
        /// Where the input ends.
        len: usize,
    },
    /// Where the line string would end and where the input does, in bytes from the line string's order byte.
    #[error("Invalid buffer length for LineString: geometry would end at byte {end}, but buffer length is {len}.")]
    ShortLineString {
        /// Where it would end.
        end: u64,
        /// Where the input ends.
        len: usize,
    },
    /// Where the ring would end and where the input does, in bytes from the ring's count.
    #[error("Invalid buffer length for LinearRing: data would end at byte {end}, but buffer length is {len}.")]
    ShortLinearRing {
        /// Where it would end.
        end: u64,
        /// Where the input ends.
        len: usize,
    },
    /// Where the multi point would end and where the input does, in bytes from the multi point's order byte.
    #[error("Invalid buffer length for MultiPoint: geometry would end at byte {end}, but buffer length is {len}.")]
    ShortMultiPoint {
        /// Where it would end.
        end: u64,
        /// Where the input ends.
        len: usize,
    },
}

/// Why bytes are rejected: the first fault from left to right.
#[derive(Debug, Clone, Copy, PartialEq)]
pub enum Cause {
    /// The input ends inside a header or before a count.
    EndOfInput,
    /// A fault with its numbers.
    General(General),
    /// A member whose kind or dimension its multi geometry doesn't take, or a point of a multi point with an SRID.
    IncorrectType,
    /// A collection inside this many open ones.
    NestingDepthExceeded(usize),
}

/// Why a reader stops: the bytes are rejected, or an allocation failed.
#[derive(Debug, Clone, Copy, PartialEq)]
pub enum ReadError {
    Cause(Cause),
    Memory,
}

/// Why a geometry is not written: the first fault in preorder, or its size.
#[derive(Debug, Clone, Copy, PartialEq)]
pub enum Fault {
    /// A geometry has this many numbers in a coordinate, and its dimension has no name.
    UnsupportedDimensions(usize),
    /// A count past 4294967295.
    Count,
    /// The length of the whole encoding does not fit `usize`.
    Size,
}

/// What is too large to be written.
#[derive(Debug, Clone, Copy, PartialEq, Error)]
pub enum Overflow {
    /// A count past 4294967295.
    #[error("count does not fit 32 bits")]
    Count,
    /// The length of the whole encoding, in bytes.
    #[error("size does not fit usize")]
    Size,
}

/// Why a geometry is not read or not written.
#[derive(Debug, Drop, Error)]
pub enum WkbError {
    /// A member whose kind or dimension its multi geometry doesn't take, or a point of a multi point with an SRID.
    #[error("Incorrect type passed to operation: {0}")]
    IncorrectType(&'static str),
    /// Kept for its name: nothing returns it.
    #[error("Not yet implemented: {0}")]
    NotYetImplemented(&'static str),
    /// A fault with its numbers.
    #[error("General error: {0}")]
    General(General),
    /// A collection inside this many open ones.
    #[error("WKB nesting depth exceeds the maximum of {0}")]
    NestingDepthExceeded(usize),
    /// The input ends inside a header or before a count, or a sink failed.
    #[error(transparent)]
    IOError(io::Error),
    /// A geometry too large to be written.
    #[error("{0}")]
    OverflowError(Overflow),
    /// An allocation failed.
    #[error("out of memory")]
    Memory(AllocError),
}

/// A result, or why there is none.
pub type WkbResult<T> = Result<T, WkbError>;

impl From<io::Error> for WkbError {
    ghost from_gives = { λ e result. result ≡ IOError e };

    fn from(e: io::Error) -> WkbError {
        WkbError::IOError(e)
    }
}

/// An allocation of the caller's own failed.
impl From<AllocError> for WkbError {
    ghost from_gives = { λ e result. result ≡ Memory e };

    fn from(e: AllocError) -> WkbError {
        WkbError::Memory(e)
    }
}

/// A list could not allocate room for a value, which `?` drops.
impl<T: Drop> From<AllocFailed<T>> for WkbError {
    ghost from_gives = { λ _ e. IsMemory e };

    fn from(_refused: AllocFailed<T>) -> WkbError {
        WkbError::Memory(AllocError)
    }
}

/// Bytes that are rejected stop the reader.
impl From<Cause> for ReadError {
    ghost from_gives = { λ cause error. error ≡ read_errors.Cause cause };

    fn from(cause: Cause) -> ReadError {
        ReadError::Cause(cause)
    }
}

/// An allocation failure stops the reader.
impl From<AllocError> for ReadError {
    ghost from_gives = { λ e error. error ≡ read_errors.Memory };

    fn from(_: AllocError) -> ReadError {
        ReadError::Memory
    }
}

/// The error that reports why bytes are rejected.
impl From<Cause> for WkbError {
    ghost from_gives = { λ cause e. Tells e cause };

    fn from(cause: Cause) -> WkbError {
        match cause {
            Cause::EndOfInput => WkbError::IOError(io::Error::from(io::ErrorKind::UnexpectedEof)),
            Cause::General(general) => WkbError::General(general),
            Cause::IncorrectType => WkbError::IncorrectType("multi geometry member"),
            Cause::NestingDepthExceeded(most) => WkbError::NestingDepthExceeded(most),
        }
    }
}

/// The error that reports why a geometry is not written.
impl From<Fault> for WkbError {
    ghost from_gives = { λ fault e. TellsFault e fault };

    #[cold]
    #[inline(never)]
    fn from(fault: Fault) -> WkbError {
        match fault {
            Fault::UnsupportedDimensions(n) => WkbError::General(General::UnsupportedDimensions(n)),
            Fault::Count => WkbError::OverflowError(Overflow::Count),
            Fault::Size => WkbError::OverflowError(Overflow::Size),
        }
    }
}

/// The error that reports why a reader stopped.
impl From<ReadError> for WkbError {
    ghost from_gives = { λ error e. TellsReadError e error };

    fn from(error: ReadError) -> WkbError {
        match error {
            ReadError::Cause(cause) => cause.into(),
            ReadError::Memory => WkbError::Memory(AllocError),
        }
    }
}
