//! The bounds of one input.

ghost use Rattle.std.specs.Prelude.{◌≡◌, ◌≢◌};
ghost use Rattle.wkb_bounds.specs.Bounded.{BoundsFront};
ghost use Rattle.wkb_abi.specs.Checks.{TellsBounds};
ghost use Rattle.wkb_abi.specs.Statuses.{IsFault};

use wkb_abi::fault::{WkbFault, report_refusal};
use wkb_abi::status::{NO_MEMORY, OK};
use wkb_bounds::{Bounds, any_bounds_into, plain_bounds_into};

/// The bounds of the geometry at the start of the bytes.
///
/// Returns `OK` and the bounds, or what `wkb_raw_check` returns.
#[unsafe(no_mangle)]
pub extern "C" fn wkb_raw_bounds(buf: &[u8], bounds: &mut Bounds, fault: &mut WkbFault) -> u32
    ensures accepted { result ≡ OK → BoundsFront buf.now bounds.new }
    ensures refused { result ≢ OK → IsFault buf.now result fault.new }
    ensures no_memory { result ≢ NO_MEMORY }
    ensures bounds_kept { result ≢ OK → bounds.new ≡ bounds.old }
    ensures fault_kept { result ≡ OK → fault.new ≡ fault.old }
{
    if plain_bounds_into(buf, bounds) {
        return OK;
    }
    bounds_or_fault(buf, bounds, fault)
}

/// Writes the bounds by the long way, which collections and rejected bytes need.
///
/// It isn't inlined, so that other bytes don't pay for its frame.
#[inline(never)]
fn bounds_or_fault(buf: &[u8], bounds: &mut Bounds, fault: &mut WkbFault) -> u32
    ensures { TellsBounds buf.now bounds.old bounds.new fault.old fault.new result }
{
    match any_bounds_into(buf, bounds) {
        Ok(()) => OK,
        Err(refused) => report_refusal(&refused, fault),
    }
}
