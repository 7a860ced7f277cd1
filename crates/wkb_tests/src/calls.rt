//! The calls on hex texts. Runs of the program are rows.

use crate::cases::{CASES, Case, case_at};
use std::alloc::Global;
use std::str;
use std::test::Fail;
use wkb::Endianness;
use wkb_cases::spelled::{Spelled, digits_of};
use wkb_cases::support::iso;
use wkb_command::calls::{
    HexFault, cost_hex, rewrite_hex, rewrite_hex_with_srid, same_hex, srid_hex,
};

fn is_iso(alloc: Global, text: &str, case: &Case) -> Result<bool, HexFault> {
    let encoding = rewrite_hex(alloc, text, &iso(Endianness::LittleEndian))?;
    Ok(encoding.as_slice() == case.iso.as_slice())
}

fn is_ewkb(
    alloc: Global,
    text: &str,
    order: Endianness,
    expected: &Spelled,
) -> Result<bool, HexFault> {
    let encoding = rewrite_hex_with_srid(alloc, text, order)?;
    Ok(encoding.as_slice() == expected.as_slice())
}

fn is_counted(alloc: Global, text: &str, case: &Case) -> Result<bool, HexFault> {
    let cost = cost_hex(alloc, text)?;
    let counts = cost.counts;
    Ok(cost.accepted && counts.turns == case.turns && counts.slots == case.turns)
}

fn is_answered(alloc: Global, text: &str, case: &Case) -> Result<bool, HexFault> {
    Ok(
        is_iso(alloc, text, case)?
            && is_ewkb(alloc, text, Endianness::LittleEndian, &case.ewkb)?
            && is_counted(alloc, text, case)?
            && srid_hex(alloc, text)?.is_none()
            && same_hex(alloc, text, text)?,
    )
}

fn case_is_answered(alloc: Global, number: usize) -> Result<bool, Fail> {
    let case = case_at(number)?;
    let digits = digits_of(case.input.as_slice())?;
    let text = str::from_utf8(digits.as_slice())?;
    Ok(is_answered(alloc, text, &case)?)
}

#[test]
fn hex_calls(rt: HostRuntime) -> Result<(), Fail> {
    for number in 0..CASES {
        assert!(rt; case_is_answered(rt.alloc(), number)?, "{number}");
    }
    Ok(())
}
