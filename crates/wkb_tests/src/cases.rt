//! The cases whose reading allocates.

use std::test::Fail;
use wkb_cases::spelled::{Spelled, bytes};
use wkb_cases::texts::{MIXED_DIMENSIONS, MULTI_LINE_TWO, POLYGON_HOLE, nested_in};

/// A polygon without rings in a multi polygon.
const MULTI_POLYGON: &str = "01 06000000 01000000 01 03000000 00000000";

/// What the two line strings are rewritten to.
const TWO_LINES: &str = "01 05000000 02000000 01 02000000 01000000 P 01 02000000 00000000";

/// What a collection of two dimensions and orders is rewritten to.
const TWO_MEMBERS: &str =
    "01 07000000 02000000 01 e9030000 P 0000000000000840 01 03000000 00000000";

/// What that collection is rewritten to under EWKB.
const TWO_MEMBERS_EWKB: &str =
    "01 07000000 02000000 01 01000080 P 0000000000000840 01 03000000 00000000";

/// An input without an SRID of its own, its encodings under ISO and EWKB, little endian, and what reading it costs: as
/// many turns as slots.
#[derive(Drop)]
pub struct Case {
    pub input: Spelled,
    pub iso: Spelled,
    pub ewkb: Spelled,
    pub turns: u128,
}

/// How many cases there are.
pub const CASES: usize = 5;

/// A case by its number.
pub fn case_at(number: usize) -> Result<Case, Fail> {
    match number {
        0 => case_of([POLYGON_HOLE, POLYGON_HOLE, POLYGON_HOLE], 2),
        1 => case_of([MULTI_POLYGON, MULTI_POLYGON, MULTI_POLYGON], 1),
        2 => case_of([MULTI_LINE_TWO, TWO_LINES, TWO_LINES], 2),
        3 => case_of([MIXED_DIMENSIONS, TWO_MEMBERS, TWO_MEMBERS_EWKB], 2),
        _ => Ok(Case {
            input: nested_in(128)?,
            iso: nested_in(128)?,
            ewkb: nested_in(128)?,
            turns: 128,
        }),
    }
}

fn case_of(texts: [&str; 3], turns: u128) -> Result<Case, Fail> {
    let [input, iso, ewkb] = texts;
    Ok(Case {
        input: bytes(input)?,
        iso: bytes(iso)?,
        ewkb: bytes(ewkb)?,
        turns,
    })
}
