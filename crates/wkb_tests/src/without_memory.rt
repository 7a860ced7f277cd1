//! The cases of headers, points, line strings, multi points and polygons without rings: none of them allocates.

use std::alloc::Global;
use std::test::Fail;
use wkb_cases::reading::{Outcome, answer_to, counts, tried};
use wkb_cases::spelled::bytes;

/// Inputs that are accepted, one a line.
const ACCEPTED: &str = "01 01000000 P
01 01000000 P ffffffff
01 e9030040 P P
01 b90b0080 P P
01 01000000 010000000000f8ff 010000000000f8ff
01 01000000 ffffffffffffffff 0000000000000040
01 e9030020 e6100000 P 0000000000000840
01 02000000 02000000 P P
00 000003ea 00000001 3ff0000000000000 4000000000000000 4008000000000000
01 03000000 00000000
01 04000000 01000000 00 00000001 3ff0000000000000 4000000000000000";

/// Inputs that are rejected, one a line, of which the first has no bytes.
const REFUSED: &str = "
01
02
01 0100
02 01000000
01 11000000 P
01 09000000 P
01 0a000000 P
01 e8030000 P
01 c00b0000 P
01 a10f0000 P
01 01000010 P
01 01000020 e6100000 0000000000000000
01 01000000 0000000000000000
01 e9030000 0000000000000000 0000000000000000
01 01000020 P
01 01000020 0000
01 01000080 P
01 02000000 0a000000 P
01 02000000 ffffffff
01 02000020 e6100000
01 02000020 e6100000 0a000000 P
01 020000c0 01000000 P 0000000000000000
01 03000000 01000000
01 03000020 e6100000
01 04000000
01 04000000 01000000
01 04000000 01000000 01 01000000 0000000000000000
01 04000020 01000000 01 01000000 P
01 04000000 01000000 00 20000001 3ff0000000000000 4000000000000000
01 04000000 01000000 00 00000002 3ff0000000000000 4000000000000000
01 04000000 01000000 02 00000001 3ff0000000000000 4000000000000000
01 04000000 01000000 00 00000001 3ff0000000000000 40000000000000
01 04000000 01000000 00 20000001 3ff0000000000000 40000000000000
01 04000000 01000000 00 00000002 3ff0000000000000 40000000000000";

/// Whether all three calls that read accept the bytes; `None` if they differ, or fail otherwise than by a rejection.
fn is_accepted(alloc: Global, input: &[u8]) -> Option<bool> {
    let answer = answer_to(alloc, input);
    let (counted, _turns, _slots) = counts(alloc, input);
    if answer != tried(alloc, input) || answer != counted {
        return None;
    }
    match answer {
        Outcome::Accepted(_) => Some(true),
        Outcome::Memory | Outcome::Other => None,
        _ => Some(false),
    }
}

// In the case code-bits only an empty polygon and an empty multi line string are accepted.
#[test]
fn nothing_allocated(rt: HostRuntime) -> Result<(), Fail> {
    for (texts, accepted) in [(ACCEPTED, true), (REFUSED, false)] {
        for text in texts.lines() {
            let input = bytes(text)?;
            assert!(rt;
                is_accepted(rt.alloc(), input.as_slice()) == Some(accepted),
                "{text}"
            );
        }
    }
    for bit in 0..32u32 {
        let mut input = bytes("01")?;
        input.extend_from_slice(&(1u32 ^ (1u32 << bit)).to_le_bytes())?;
        input.spell("P")?;
        let accepted = bit == 1 || bit == 2;
        assert!(rt;
            is_accepted(rt.alloc(), input.as_slice()) == Some(accepted),
            "{bit}"
        );
    }
    Ok(())
}
