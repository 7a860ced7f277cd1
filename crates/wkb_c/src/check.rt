//! What is at the start of some bytes, or why they are rejected.

ghost use Rattle.std.specs.Prelude.{◌≡◌, ◌≢◌, None, IfOk, IfErr};
ghost use Rattle.wkb_check.specs.Public.{DescribesFront};
ghost use Rattle.wkb_abi.specs.Checks.{IsFound, TellsFound};
ghost use Rattle.wkb_abi.specs.Classes.{IsRefusalStatus, FitsByte};
ghost use Rattle.wkb_abi.specs.Statuses.{IsFault};

use wkb_abi::fault::{WkbFault, report_refusal};
use wkb_abi::found::{Found, found_of};
use wkb_abi::status::{NO_MEMORY, OK};
use wkb_check::{Summary, check, check_plain};

/// Whether a geometry is at the start of the bytes.
///
/// Returns `OK` and what was found, or the status of the one refusal and its numbers.
#[unsafe(no_mangle)]
pub extern "C" fn wkb_raw_check(buf: &[u8], found: &mut Found, fault: &mut WkbFault) -> u32
    ensures accepted { result ≡ OK → IsFound buf.now found.new }
    ensures refused { result ≢ OK → IsFault buf.now result fault.new }
    ensures no_memory { result ≢ NO_MEMORY }
    ensures found_kept { result ≢ OK → found.new ≡ found.old }
    ensures fault_kept { result ≡ OK → fault.new ≡ fault.old }
{
    match check_plain(buf) {
        Some(plain) => {
            *found = found_of(buf, &plain);
            OK
        }
        None => check_any(buf, found, fault),
    }
}

/// Checks any bytes by the long way, which collections and rejected bytes need.
///
/// It isn't inlined, so that other bytes don't pay for its frame.
#[inline(never)]
fn check_any(buf: &[u8], found: &mut Found, fault: &mut WkbFault) -> u32
    ensures { TellsFound buf.now found.old found.new fault.old fault.new result }
{
    match check(buf) {
        Ok(summary) => {
            *found = found_of(buf, &summary);
            OK
        }
        Err(refused) => report_refusal(&refused, fault),
    }
}

/// What is at the start of the bytes; or the status of the one refusal, and its numbers.
///
/// It isn't inlined, so that bytes that take the short way don't pay for its frame.
#[inline(never)]
pub fn check_input(buf: &[u8], fault: &mut WkbFault) -> Result<Summary, u32>
    ensures accepted { IfOk result (λ found. DescribesFront buf.now found) }
    ensures refused { IfErr result (λ status. IsFault buf.now status fault.new) }
    ensures refusal { IfErr result IsRefusalStatus }
    ensures small { IfErr result FitsByte }
    ensures kept { IfOk result (λ _. fault.new ≡ fault.old) }
{
    match check(buf) {
        Ok(found) => Ok(found),
        Err(refused) => Err(report_refusal(&refused, fault)),
    }
}
