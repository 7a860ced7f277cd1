//! The offsets at which parts end.

ghost use Rattle.std.specs.Prelude.{◌≡◌, ◌+◌, ℕ, length, ◌≤◌, IfOk, []};
ghost use Rattle.wkb_view.specs.Prelude.{Layout, body_start};
ghost use Rattle.wkb_view.specs.Ends.{PartsOf, whole_at, parts_at, AreEndsOf, PassesParts, ReadsEnds};
ghost use Rattle.wkb_view.specs.Entries.{entries, capacity, HasSlots};
ghost use Rattle.wkb_view.specs.Outcome.{CanCount, RefusesWithoutSlots};
ghost use Rattle.wkb_view.specs.Passes.{PassesPart};
ghost use Rattle.wkb_view.specs.Pieces.{IsAfterCount, Passed};

use crate::counts::Counts;
use crate::reserved::{Reserved, counted_list};
use std::alloc::Global;
use wkb_geom::words::COUNT_SIZE;
use wkb_geom::{Cause, Layout, ReadError};

/// Parts of one form that follow one another: rings, or line strings with headers of their own.
pub(crate) trait Parts {
    // The fewest bytes of a part.
    ghost MIN_SIZE: { ℕ };

    // The parts of a geometry of this layout.
    ghost parts: { Layout → PartsOf MIN_SIZE };

    const MIN_SIZE: usize;

    /// The bytes after the part at the start of the bytes.
    fn pass<'a>(layout: Layout, bytes: &'a [u8]) -> Result<&'a [u8], Cause>
        ensures answer { PassesPart (parts layout).reading (parts layout).seen bytes.now result }
        ensures passed { IfOk result
            (λ rest. Passed MIN_SIZE (parts layout).IsPart bytes.now rest.now) };
}

/// The offsets at which the parts after a count end, and the bytes after them.
#[inline(always)]
pub(crate) fn read_ends<'a, P: Parts>(
    alloc: Global,
    layout: Layout,
    bytes: &'a [u8],
    counts: &mut Counts,
) -> Result<(Vec<usize>, &'a [u8]), ReadError>
    requires fits { CanCount counts.old (whole_at P.parts layout bytes.now).0 }
    ensures answer { ReadsEnds P.parts layout bytes.now result counts.old counts.new }
    ensures ends { IfOk result (λ x. AreEndsOf P.parts layout x.0.items bytes.now x.1) }
    ensures shorter { IfOk result (λ x. IsAfterCount layout bytes.now x.1.now) }
    ensures no_memory { RefusesWithoutSlots (whole_at P.parts layout bytes.now) result }
{
    let (count, ends) = counted_list(alloc, layout, bytes, P::MIN_SIZE, counts)?;
    let (ends, rest) = pass_parts::<P>(layout, bytes, ends, count, counts)?;
    Ok((ends.into_vec(), rest))
}

/// Passes `count` parts, and keeps the offsets at which they end.
#[inline(always)]
fn pass_parts<'a, P: Parts>(
    layout: Layout,
    bytes: &'a [u8],
    mut ends: Reserved<usize>,
    count: u32,
    counts: &mut Counts,
) -> Result<(Reserved<usize>, &'a [u8]), Cause>
    requires whole { body_start layout.has_srid + COUNT_SIZE ≤ length bytes.now }
    requires empty { entries ends ≡ [] }
    requires room { HasSlots P.MIN_SIZE layout count bytes.now (capacity ends) }
    requires fits { CanCount counts.old (parts_at P.parts layout count bytes.now).0 }
    ensures answer { PassesParts P.parts layout count bytes.now result counts.old counts.new }
    ensures ends { IfOk result (λ x. AreEndsOf P.parts layout (entries x.0) bytes.now x.1) }
    ensures shorter { IfOk result (λ x. IsAfterCount layout bytes.now x.1.now) }
{
    let mut rest = layout.after_count(bytes);
    for _ in 0..count {
        counts.turns += 1;
        rest = P::pass(layout, rest)?;
        ends.push(bytes.len() - rest.len());
    }
    Ok((ends, rest))
}
