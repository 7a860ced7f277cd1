//! Where and why some bytes are rejected.

ghost use Rattle.std.specs.Prelude.{◌≡◌};
ghost use Rattle.wkb_abi.specs.Classes.{IsRefusalStatus, FitsByte};
ghost use Rattle.wkb_abi.specs.Statuses.{cause_status, general_status, cause_fault, ReportsRefusal};

use crate::status::{
    CODE_OUT_OF_RANGE, INCORRECT_TYPE, INVALID_BYTE_ORDER, NESTING_DEPTH_EXCEEDED, OK,
    SHORT_HEADER, SHORT_LINE_STRING, SHORT_LINEAR_RING, SHORT_MULTI_POINT, SHORT_POINT,
};
use wkb_check::Refused;
use wkb_geom::{Cause, General};

/// The numbers of a refusal.
#[repr(C)]
#[derive(Clone, Copy, Debug, PartialEq)]
pub struct WkbFault {
    /// How many parts come before the one that is rejected.
    pub part: u64,
    /// Where that part begins, counted from the start of the input.
    pub offset: u64,
    /// Of a short part: where it would end, in bytes from its own first byte.
    pub end: u64,
    /// Of a short part: where the input ends, in bytes from the part's first byte.
    pub len: u64,
    /// The code that is out of range, with all its bits.
    pub code: u32,
    /// The status that the call returns.
    pub status: u32,
}

/// The numbers of no refusal.
pub const NO_FAULT: WkbFault = WkbFault {
    part: 0,
    offset: 0,
    end: 0,
    len: 0,
    code: 0,
    status: OK,
};

/// The status of a fault of the bytes.
fn status_of_general(fault: General) -> u32
    ensures status { result ≡ general_status fault }
    ensures small { FitsByte result }
{
    match fault {
        General::InvalidByteOrder => INVALID_BYTE_ORDER,
        General::CodeOutOfRange(_) => CODE_OUT_OF_RANGE,
        General::UnsupportedDimensions(_) => INCORRECT_TYPE,
        General::ShortPoint { .. } => SHORT_POINT,
        General::ShortLineString { .. } => SHORT_LINE_STRING,
        General::ShortMultiPoint { .. } => SHORT_MULTI_POINT,
        General::ShortLinearRing { .. } => SHORT_LINEAR_RING,
    }
}

/// The status of a cause.
pub fn status_of_cause(cause: Cause) -> u32
    ensures status { result ≡ cause_status cause }
    ensures small { FitsByte result }
{
    match cause {
        Cause::EndOfInput => SHORT_HEADER,
        Cause::General(fault) => status_of_general(fault),
        Cause::IncorrectType => INCORRECT_TYPE,
        Cause::NestingDepthExceeded(_) => NESTING_DEPTH_EXCEEDED,
    }
}

/// The numbers of a refusal by the check.
fn fault_of_refused(refused: &Refused) -> WkbFault
    ensures { result ≡ cause_fault refused.now.part refused.now.offset refused.now.cause }
{
    let (end, len, code) = match refused.cause {
        Cause::General(General::CodeOutOfRange(code)) => (0, 0, code),
        Cause::General(General::ShortPoint { end, len }) => (end, len as u64, 0),
        Cause::General(General::ShortLineString { end, len }) => (end, len as u64, 0),
        Cause::General(General::ShortMultiPoint { end, len }) => (end, len as u64, 0),
        Cause::General(General::ShortLinearRing { end, len }) => (end, len as u64, 0),
        _ => (0, 0, 0),
    };
    WkbFault {
        part: refused.part as u64,
        offset: refused.offset as u64,
        end,
        len,
        code,
        status: status_of_cause(refused.cause),
    }
}

/// Reports a refusal by the check, and returns its status.
pub fn report_refusal(refused: &Refused, fault: &mut WkbFault) -> u32
    ensures is { ReportsRefusal refused.now result fault.new }
    ensures refusal { IsRefusalStatus result }
    ensures small { FitsByte result }
{
    *fault = fault_of_refused(refused);
    fault.status
}
