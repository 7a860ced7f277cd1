//! Each call that reads, and lists of fewer entries than they claim.

use crate::cases::{CASES, Case, case_at};
use std::alloc::Global;
use std::test::Fail;
use wkb_cases::reading::{Outcome, answer_to, counts, tried};
use wkb_cases::spelled::bytes;

// Whether a call accepted the whole input.
fn is_accepted(answer: Outcome, case: &Case) -> Result<bool, Fail> {
    match answer {
        Outcome::Accepted(size) => Ok(size == case.input.len() as u64),
        Outcome::Memory => Err(Fail::new("out of memory")),
        _ => Ok(false),
    }
}

// Where an allocation fails, neither count passes the whole run's.
fn is_counted(alloc: Global, case: &Case) -> Result<bool, Fail> {
    let (answer, turns, slots) = counts(alloc, case.input.as_slice());
    if turns > case.turns || slots > case.turns {
        return Ok(false);
    }
    let is_whole = turns == case.turns && slots == case.turns;
    Ok(is_accepted(answer, case)? && is_whole)
}

fn is_read(alloc: Global, number: usize) -> Result<bool, Fail> {
    let case = case_at(number)?;
    let input = case.input.as_slice();
    Ok(
        is_accepted(answer_to(alloc, input), &case)?
            && is_accepted(tried(alloc, input), &case)?
            && is_counted(alloc, &case)?,
    )
}

#[test]
fn each_call(rt: HostRuntime) -> Result<(), Fail> {
    for number in 0..CASES {
        assert!(rt; is_read(rt.alloc(), number)?, "{number}");
    }
    Ok(())
}

/// Lists that claim 4294967295 entries, of which the first is there.
const CLAIMED: [&str; 4] = [
    "01 03000000 ffffffff 00000000",
    "01 05000000 ffffffff 01 02000000 00000000",
    "01 06000000 ffffffff 01 03000000 00000000",
    "01 07000000 ffffffff 01 02000000 00000000",
];

// How many bytes their allocations ask for is in checks/memory/expected.
#[test]
fn claimed_counts(rt: HostRuntime) -> Result<(), Fail> {
    for text in CLAIMED {
        match answer_to(rt.alloc(), bytes(text)?.as_slice()) {
            Outcome::Memory => return Err(Fail::new("out of memory")),
            answer => assert!(rt; answer == Outcome::EndOfInput, "{text}"),
        }
    }
    Ok(())
}
