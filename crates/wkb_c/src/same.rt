//! Two inputs of one call: which of them is rejected, and whether they have one value.

ghost use Rattle.std.specs.Prelude.{◌≡◌, ◌≢◌, None, IfSome};
ghost use Rattle.wkb_check.specs.Inputs.{IsAccepted};
ghost use Rattle.wkb_abi.specs.Statuses.{IsComparison, IsFault, IsRefusedInTurn};

use crate::check::check_input;
use wkb_abi::fault::WkbFault;
use wkb_abi::numbers::{DIFFERENT, EQUAL, FIRST, SECOND};
use wkb_abi::status::{NO_MEMORY, OK};
use wkb_check::check_plain;
use wkb_rewrite::have_one_value;

/// Whether two inputs begin with geometries of one value, SRIDs and byte orders aside.
///
/// Rejected as the first is, or else as the second; `which` is the one that is rejected.
#[unsafe(no_mangle)]
pub extern "C" fn wkb_raw_same(
    a: &[u8],
    b: &[u8],
    equal: &mut u32,
    fault: &mut WkbFault,
    which: &mut u32,
) -> u32
    ensures compared { result ≡ OK → IsComparison a.now b.now equal.new }
    ensures refused { result ≢ OK → IsRefusedInTurn a.now b.now result fault.new which.new }
    ensures no_memory { result ≢ NO_MEMORY }
    ensures equal_kept { result ≢ OK → equal.new ≡ equal.old }
    ensures fault_kept { result ≡ OK → fault.new ≡ fault.old }
    ensures which_kept { result ≡ OK → which.new ≡ which.old }
{
    if let Some(status) = status_of_refusal(a, fault) {
        *which = FIRST;
        return status;
    }
    if let Some(status) = status_of_refusal(b, fault) {
        *which = SECOND;
        return status;
    }
    *equal = compare(a, b);
    OK
}

/// The status of the one refusal of some bytes, and its numbers; none if a geometry is at their start. The short way
/// comes first, and it counts in registers.
#[tactic(auto, using(wkb_abi::proofs::Telling::found_is_accepted))]
#[inline(always)]
pub fn status_of_refusal(buf: &[u8], fault: &mut WkbFault) -> Option<u32>
    ensures none { result ≡ None → IsAccepted buf.now }
    ensures refused { IfSome result (λ status. IsFault buf.now status fault.new) }
    ensures kept { result ≡ None → fault.new ≡ fault.old }
{
    if let Some(_plain) = check_plain(buf) {
        return None;
    }
    match check_input(buf, fault) {
        Ok(_found) => None,
        Err(status) => Some(status),
    }
}

/// Compares the values of two inputs that the check accepts.
pub fn compare(a: &[u8], b: &[u8]) -> u32
    requires first { IsAccepted a.now }
    requires second { IsAccepted b.now }
    ensures { IsComparison a.now b.now result }
{
    if have_one_value(a, b) {
        EQUAL
    } else {
        DIFFERENT
    }
}
