//! The bytes of cases that several tests read, in hex.

use crate::spelled::Spelled;
use std::test::Fail;

/// A polygon with a hole of no coordinates.
pub const POLYGON_HOLE: &str = "01 03000000 02000000 01000000 P 00000000";

/// A line string that is little endian and one with an SRID that is big endian and empty.
pub const MULTI_LINE_TWO: &str =
    "01 05000000 02000000 01 02000000 01000000 P 00 20000002 000010e6 00000000";

/// An Xy collection of a big endian Xyz point and an Xy polygon without rings.
pub const MIXED_DIMENSIONS: &str = "01 07000000 02000000
    00 000003e9 3ff0000000000000 4000000000000000 4008000000000000 01 03000000 00000000";

/// This many collections, one inside the other, around a point of two zeros.
pub fn nested_in(levels: usize) -> Result<Spelled, Fail> {
    let mut spelled = Spelled::new();
    for _level in 0..levels {
        spelled.spell("01 07000000 01000000")?;
    }
    spelled.spell("01 01000000 0000000000000000 0000000000000000")?;
    Ok(spelled)
}
