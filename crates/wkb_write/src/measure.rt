//! Measuring: the first fault of a geometry, or the size of its encoding.
//!
//! Faults are found in preorder: a geometry's dimensions, its count, then its items. Only the bytes after the header
//! are measured. `usize::MAX` stands for itself and everything larger: none of them fits once the header is added.

ghost use Rattle.std.specs.Prelude.{◌≡◌, ◌*◌, ◌^◌, ◌<◌, Err, None, IsErrAnd};
ghost use Rattle.wkb_geom.specs.Dimensions.{width, written_dimension};
ghost use Rattle.wkb_write.specs.Prelude.{IsForm, coordinate_words, dimensions_fault, result_of, TellsFault};
ghost use Rattle.wkb_write.specs.Prelude.{FindsUnsupported, HasWords, IsCountToWrite};
ghost use Rattle.wkb_write.specs.Prelude.{IsMeasuredBehindHeader, OfMeasured, IsSized, IsSizeOf};

use wkb_geom::words::WORD_SIZE;
use wkb_geom::{Dimension, Dimensions, Fault, Form, WkbError, WkbResult};
use wkb_sink::block::dimension_to_write;
use wkb_sink::options::length_of_header;

/// A size, or the fault, in two words: a call returns these in registers. A `Result` of the two takes three words, and
/// is returned in memory.
#[derive(Clone, Copy)]
pub enum Measured {
    Bytes(usize),
    UnsupportedDimensions(usize),
    Count,
    Size,
}

/// Return faults through this call: LLVM then keeps `add_members` a tail call, which it doesn't if a fault is built in
/// place.
impl From<Fault> for Measured {
    ghost from_gives = { λ fault measured. result_of measured ≡ Err fault };

    #[inline(always)]
    fn from(fault: Fault) -> Measured {
        match fault {
            Fault::UnsupportedDimensions(n) => Measured::UnsupportedDimensions(n),
            Fault::Count => Measured::Count,
            Fault::Size => Measured::Size,
        }
    }
}

/// What was measured, as a `Result`.
#[inline(always)]
fn as_result(measured: Measured) -> Result<usize, Fault>
    ensures { result ≡ result_of measured }
{
    match measured {
        Measured::Bytes(n) => Ok(n),
        Measured::UnsupportedDimensions(n) => Err(Fault::UnsupportedDimensions(n)),
        Measured::Count => Err(Fault::Count),
        Measured::Size => Err(Fault::Size),
    }
}

/// The number of words of a coordinate, where a geometry of these dimensions can't be written.
#[inline(always)]
#[tactic(auto, using(crate::proofs::Faults::fault_laws), unfolding(wkb_geom::specs::Encodings::dimensions_fault))]
pub fn unsupported_dimension(dim: Dimensions) -> Option<usize>
    ensures { FindsUnsupported dim result }
{
    match dim {
        Dimensions::Unknown(n) if n < 2 || 4 < n => Some(n),
        _ => None,
    }
}

/// A count, where four bytes hold it.
#[tactic(auto, using(crate::proofs::Faults::fault_laws))]
pub fn count_to_write(n: u128) -> Option<u32>
    ensures { IsCountToWrite n result }
{
    u32::try_from(n).ok()
}

/// The number of words of a coordinate that is measured. No dimension that can be written has more than four.
#[inline(always)]
pub fn words_to_measure(dim: Dimensions) -> usize
    ensures { HasWords dim result }
{
    dim.size().min(4)
}

/// A size as it is measured. Where `usize` has 64 bits it holds each.
#[inline(always)]
pub fn measured_size(size: u64) -> usize
    ensures { result ≡ size }
{
    size.min(usize::MAX as u64) as usize
}

/// The size of `n` coordinates.
#[inline(always)]
pub fn words_size(dim: Dimensions, n: u32) -> usize
    ensures sum { result ≡ 8 * coordinate_words dim * n }
    ensures bound { result < 2 ^ 40 }
{
    measured_size(WORD_SIZE as u64 * words_to_measure(dim) as u64 * n as u64)
}

/// A geometry of these dimensions, by what was measured of its body.
#[inline(always)]
#[tactic(auto, using(crate::proofs::Whole::header_laws), unfolding(crate::specs::Measures::IsMeasured))]
pub fn behind_header(dim: Dimensions, body: Measured) -> Measured
    ensures { IsMeasuredBehindHeader dim body result }
{
    match unsupported_dimension(dim) {
        None => body,
        Some(n) => Measured::UnsupportedDimensions(n),
    }
}

/// The dimension of a geometry that can be written.
#[inline(always)]
#[tactic(auto, using(crate::proofs::Supported::width_laws))]
pub fn supported_dimension(dim: Dimensions) -> Dimension
    requires { dimensions_fault dim ≡ None }
    ensures named { result ≡ written_dimension dim }
    ensures words { HasWords dim (width result) }
{
    dimension_to_write(dim)
}

/// The size that was measured and that of the header, where `usize` holds their sum.
#[inline]
#[tactic(auto, using(crate::proofs::Sizes::size_laws))]
pub fn whole_size(measured: Measured, form: Form) -> Result<usize, Fault>
    ensures size { OfMeasured measured (λ g. IsSized form g result) }
    ensures fits { IsForm form }
{
    let header = length_of_header(form);
    match as_result(measured)?.checked_add(header) {
        Some(size) => Ok(size),
        None => Err(Fault::Size),
    }
}

/// The size of an encoding under the form, or the error that reports the fault.
#[inline]
#[tactic(auto, using(crate::proofs::Sizes::size_answered))]
pub fn size_of(measured: Measured, form: Form) -> WkbResult<usize>
    ensures { OfMeasured measured (λ g. IsSizeOf form g result) }
{
    match whole_size(measured, form) {
        Ok(size) => Ok(size),
        Err(fault) => refuse(fault),
    }
}

/// The error that reports the fault.
#[inline(always)]
pub fn refuse<T>(fault: Fault) -> WkbResult<T>
    ensures { IsErrAnd result (λ e. TellsFault e fault) }
{
    Err(WkbError::from(fault))
}
