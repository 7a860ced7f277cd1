//! Lists that are allocated once, after a count.

ghost use Rattle.std.specs.Prelude.{◌≡◌, ◌+◌, ◌-◌, ◌<◌, ◌≤◌, ◌/◌, ◌^◌, [], min, length, IfOk};
ghost use Rattle.std.specs.Prelude.{IfErr};
ghost use Rattle.wkb_view.specs.Prelude.{body_start, count_in};
ghost use Rattle.wkb_view.specs.Entries.{entries, capacity, entries_asked, HasNoList};
ghost use Rattle.wkb_view.specs.Outcome.{IsCause};

use crate::counts::Counts;
use std::alloc::Global;
use wkb_geom::words::COUNT_SIZE;
use wkb_geom::{Layout, ReadError};

/// A list that was given all its room when it was made, so that a push allocates nothing.
#[derive(Drop)]
pub struct Reserved<T> {
    items: Vec<T>,
}

impl<T> Reserved<T> {
    ghost use Rattle.std.specs.Prelude.{◌≡◌, ◌++◌, ◌∷◌, [], ◌<◌, length};
    ghost use Rattle.wkb_view.specs.Entries.{entries, capacity};

    /// Adds an entry, for which there is room.
    #[inline]
    pub fn push(&mut self, entry: T)
        requires { length (entries self.old) < capacity self.old }
        ensures entries { entries self.new ≡ entries self.old ++ entry ∷ [] }
        ensures room { capacity self.new ≡ capacity self.old }
    {
        self.items.push_reserved(entry);
    }

    /// The entries as an ordinary list.
    #[inline]
    pub fn into_vec(self) -> Vec<T>
        ensures { result.items ≡ entries self }
    {
        self.items
    }
}

/// The number of entries that a list asks for: as many as the count claims, but no more than the remaining bytes can
/// hold if each part has at least `least` bytes.
#[inline]
fn bounded_capacity(count: u32, remaining: usize, least: usize) -> usize
    requires { 0 < least }
    ensures { result ≡ min count (remaining / least) }
{
    (count as usize).min(remaining / least)
}

/// The count at the beginning of a body, and a list for its parts, each of at least `least` bytes. The entries that the
/// list asks for are counted as slots before it asks.
#[tactic(auto, using(crate::proofs::Lists::parts_length))]
#[inline]
pub fn counted_list<T>(
    alloc: Global,
    layout: Layout,
    bytes: &[u8],
    least: usize,
    counts: &mut Counts,
) -> Result<(u32, Reserved<T>), ReadError>
    requires least { 0 < least }
    requires fits { counts.old.slots + entries_asked least layout bytes.now < 2 ^ 128 }
    ensures slots { counts.new.slots ≡ counts.old.slots + entries_asked least layout bytes.now }
    ensures turns { counts.new.turns ≡ counts.old.turns }
    ensures count { IfOk result (λ x. x.0 ≡ count_in layout bytes.now) }
    ensures whole { IfOk result (λ x. body_start layout.has_srid + COUNT_SIZE ≤ length bytes.now) }
    ensures empty { IfOk result (λ x. entries x.1 ≡ []) }
    ensures room { IfOk result (λ x. capacity x.1 ≡ entries_asked least layout bytes.now) }
    ensures no_list { IfErr result (HasNoList layout bytes.now) }
    ensures no_memory { entries_asked least layout bytes.now ≡ 0 → IfErr result IsCause }
{
    let count = layout.count(bytes)?;
    let remaining = layout.after_count(bytes).len();
    // A count may claim anything, and no later push may fail (docs/DECISIONS.md, D4).
    let capacity = bounded_capacity(count, remaining, least);
    counts.slots += capacity as u128;
    let items = Vec::with_capacity(alloc, capacity)?;
    Ok((count, Reserved { items }))
}
