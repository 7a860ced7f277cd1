//! What the lemmas ask of the bytes that a view lends.

ghost use Rattle.wkb_view.specs.Lends.{AreSlice};

/// The bytes of a slice are below 256, and their number below 2^64.
#[inline(always)]
pub fn are_bytes(_bytes: &[u8])
    ensures { AreSlice _bytes.now }
{}
