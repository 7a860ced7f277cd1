//! What a read costs.

/// What a read costs. A *turn* is begun for each ring of a polygon and for each member of another geometry, before it
/// is looked at. A *slot* is one entry of a list that is allocated, counted before the allocation.
#[derive(Debug, Clone, Copy, PartialEq)]
pub struct Counts {
    pub turns: u128,
    pub slots: u128,
}
