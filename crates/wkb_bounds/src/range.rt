//! Ranges of ordinates.

ghost use Rattle.std.specs.Prelude.{◌≡◌};
ghost use Rattle.wkb_bounds.specs.Ranges.{no_numbers};
ghost use Rattle.wkb_bounds.specs.Bounded.{nothing as no_bounds};

/// The word of infinity, the greatest number.
pub(crate) const INFINITY: u64 = 0x7ff0_0000_0000_0000;
/// The word of minus infinity, the least number.
pub(crate) const MINUS_INFINITY: u64 = 0xfff0_0000_0000_0000;

/// The range of an ordinate. A NaN is no number, and doesn't count.
#[repr(C)]
#[derive(Clone, Copy, Debug, PartialEq)]
pub struct Range {
    /// The bits of the least number; of infinity where there is none.
    pub least: u64,
    /// The bits of the greatest number; of minus infinity where there is none.
    pub greatest: u64,
    /// How many numbers there are.
    pub count: u64,
}

/// The ranges of the ordinates of a geometry.
#[repr(C)]
#[derive(Clone, Copy, Debug, PartialEq)]
pub struct Bounds {
    /// The range of x.
    pub x: Range,
    /// The range of y.
    pub y: Range,
    /// The range of z; of a geometry without a z, that of no number.
    pub z: Range,
    /// The range of m, likewise.
    pub m: Range,
}

impl Range {
    /// The range of no number.
    #[inline(always)]
    pub fn empty() -> Range
        ensures { result ≡ no_numbers }
    {
        Range {
            least: INFINITY,
            greatest: MINUS_INFINITY,
            count: 0,
        }
    }
}

impl Bounds {
    /// The bounds of no coordinate.
    #[inline(always)]
    pub fn empty() -> Bounds
        ensures { result ≡ no_bounds }
    {
        Bounds {
            x: Range::empty(),
            y: Range::empty(),
            z: Range::empty(),
            m: Range::empty(),
        }
    }
}
