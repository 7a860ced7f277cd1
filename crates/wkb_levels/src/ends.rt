//! Where the items of a level end.

ghost use Rattle.std.specs.Prelude.{◌≡◌, ◌≤◌, ◌<◌, ◌+◌, ◌↔◌, ◌⊎◌, length, IsTrue, IsSome, IfSome, slice_index};
ghost use Rattle.std.specs.Prelude.{slice_range};
ghost use Rattle.wkb_levels.specs.Cuts.{AreEnds, AreOnes};

/// Items of a level one after another, by their ends, which are counted in items of the next level. Each but the first
/// begins where the one before it ends.
#[derive(Debug, Clone, Copy)]
pub enum Ends<'w> {
    /// One of the next level each, from one number up to another.
    Each { from: u64, to: u64 },
    /// Where the first begins, and the end of each.
    At { start: u64, ends: &'w [u64] },
}

#[tactic(auto, using(crate::proofs::OnesEach::each_laws))]
impl<'w> Ends<'w> {
    ghost use Rattle.wkb_levels.specs.EndLists.{start_of, ends_of, begin_of, AreEndsWithin};

    /// Where the first begins.
    pub fn start(&self) -> u64
        ensures { result ≡ start_of self.now }
    {
        match self {
            Ends::Each { from, .. } => *from,
            Ends::At { start, .. } => *start,
        }
    }

    /// How many items there are.
    pub fn len(&self) -> usize
        ensures { result ≡ length (ends_of self.now) }
    {
        match self {
            Ends::Each { from, to } => number_of_items(to.saturating_sub(*from)),
            Ends::At { ends, .. } => ends.len(),
        }
    }

    /// Where item i ends.
    pub fn end(&self, i: usize) -> u64
        requires { i < length (ends_of self.now) }
        ensures { result ≡ slice_index (ends_of self.now) i }
    {
        match self {
            Ends::Each { from, to } => number_behind(*from, i, *to),
            Ends::At { ends, .. } => end_at(ends, i),
        }
    }

    /// Where item i begins. For `i == len()`: where the last item ends.
    pub fn begin(&self, i: usize) -> u64
        requires { i ≤ length (ends_of self.now) }
        ensures { result ≡ begin_of self.now i }
    {
        if i == 0 {
            self.start()
        } else {
            self.end(i - 1)
        }
    }

    /// The items from one index up to another.
    pub fn part(&self, from: usize, to: usize) -> Ends<'w>
        requires order { from ≤ to }
        requires within { to ≤ length (ends_of self.now) }
        ensures start { start_of result ≡ begin_of self.now from }
        ensures ends { ends_of result ≡ slice_range (ends_of self.now) from to }
    {
        match self {
            Ends::Each {
                from: first,
                to: last,
            } => Ends::Each {
                from: number_at(*first, from, *last),
                to: number_at(*first, to, *last),
            },
            Ends::At { ends, .. } => Ends::At {
                start: self.begin(from),
                ends: &ends[from..to],
            },
        }
    }

    /// The items from one number up to another. None if they fall or pass the level.
    pub fn range(&self, from: u64, to: u64) -> Option<Ends<'w>>
        ensures some { IsSome result ↔ ((from ≤ to) × (to ≤ length (ends_of self.now))) }
        ensures start { IfSome result (λ e. start_of e ≡ begin_of self.now from) }
        ensures ends { IfSome result (λ e. ends_of e ≡ slice_range (ends_of self.now) from to) }
    {
        if to < from || (self.len() as u64) < to {
            return None;
        }
        Some(self.part(from as usize, to as usize))
    }

    /// The end of the last item; with no items, the start.
    pub fn last(&self) -> u64
        ensures { result ≡ begin_of self.now (length (ends_of self.now)) }
    {
        self.begin(self.len())
    }

    /// Whether the ends don't fall, from the start on, and none passes the limit.
    pub fn are_within(&self, limit: usize) -> bool
        ensures { IsTrue result ↔ AreEndsWithin limit self.now }
    {
        match self {
            Ends::Each { from, to } => *from <= limit as u64
                && (*to <= *from || *to <= limit as u64),
            Ends::At { start, ends } => are_ends(*start, ends, limit),
        }
    }

    /// Whether each item has one item of the next level.
    pub fn are_ones(&self) -> bool
        ensures { IsTrue result ↔ AreOnes (start_of self.now) (ends_of self.now) }
    {
        match self {
            Ends::Each { .. } => true,
            Ends::At { start, ends } => are_ones(*start, ends),
        }
    }
}

/// A number of items as `usize`. Where that has 64 bits it holds each.
pub(crate) fn number_of_items(n: u64) -> usize
    ensures { result ≡ n }
{
    n.min(usize::MAX as u64) as usize
}

/// `from + i`, which fits: it is at most `last`, or `i` is 0. The proof takes the bound from `last`.
fn number_at(from: u64, i: usize, last: u64) -> u64
    requires { (i ≡ 0) ⊎ (from + i ≤ last) }
    ensures { result ≡ from + i }
{
    from + i as u64
}

/// `from + i + 1`, which fits: it is at most `last`. The proof takes the bound from `last`.
fn number_behind(from: u64, i: usize, last: u64) -> u64
    requires { from + i < last }
    ensures { result ≡ from + i + 1 }
{
    from + i as u64 + 1
}

/// The end at an index. It is a call, since the proof sees no bound of a slice in an enum.
fn end_at(ends: &[u64], i: usize) -> u64
    requires { i < length ends.now }
    ensures { result ≡ slice_index ends.now i }
{
    ends[i]
}

/// Whether ends don't fall, from the start on, and none passes the limit.
fn are_ends(start: u64, ends: &[u64], limit: usize) -> bool
    ensures { IsTrue result ↔ AreEnds limit start ends.now }
{
    let mut at = start;
    for end in ends {
        if *end < at {
            return false;
        }
        at = *end;
    }
    at <= limit as u64
}

/// Whether each end is one more than the one before it.
fn are_ones(start: u64, ends: &[u64]) -> bool
    ensures { IsTrue result ↔ AreOnes start ends.now }
{
    let mut at = start;
    for end in ends {
        if *end <= at || *end - at != 1 {
            return false;
        }
        at = *end;
    }
    true
}
