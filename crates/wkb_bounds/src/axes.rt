//! Ranges on all axes, while they are widened.

ghost use Rattle.std.specs.Prelude.{◌≡◌, ◌*◌, ◌<◌, ◌≤◌, IfSome, length};
ghost use Rattle.wkb_geom.specs.Dimensions.{width};
ghost use Rattle.wkb_geom.specs.Reading.{coordinates};
ghost use Rattle.wkb_bounds.specs.Ordinates.{axis_place, z_axis, m_axis};
ghost use Rattle.wkb_bounds.specs.Bounded.{WidensBounds, WidensPlane, HasRoom, bounds_by};
ghost use Rattle.wkb_bounds.specs.Bounded.{nothing as no_bounds};
ghost use Rattle.wkb_bounds.specs.Runs.{run_coordinates, rows};

use crate::extremes::Extremes;
use crate::range::Bounds;
use crate::run::Run;
use wkb_geom::{Dimension, Endianness, by_order};

/// The extremes on each axis.
#[derive(Clone, Copy)]
pub(crate) struct AxisExtremes {
    x: Extremes,
    y: Extremes,
    z: Extremes,
    m: Extremes,
}

/// Which word of a coordinate is its z.
#[inline(always)]
pub(crate) fn place_of_z(dimension: Dimension) -> Option<usize>
    ensures place { result ≡ axis_place z_axis dimension }
    ensures there { IfSome result (λ k. k < width dimension) }
{
    match dimension {
        Dimension::Xyz | Dimension::Xyzm => Some(2),
        Dimension::Xy | Dimension::Xym => None,
    }
}

/// Which word of a coordinate is its m.
#[inline(always)]
pub(crate) fn place_of_m(dimension: Dimension) -> Option<usize>
    ensures place { result ≡ axis_place m_axis dimension }
    ensures there { IfSome result (λ k. k < width dimension) }
{
    match dimension {
        Dimension::Xym => Some(2),
        Dimension::Xyzm => Some(3),
        Dimension::Xy | Dimension::Xyz => None,
    }
}

impl AxisExtremes {
    /// Those of no coordinate.
    #[inline(always)]
    pub(crate) fn none() -> AxisExtremes
        ensures { bounds_by result ≡ no_bounds }
    {
        AxisExtremes {
            x: Extremes::none(),
            y: Extremes::none(),
            z: Extremes::none(),
            m: Extremes::none(),
        }
    }

    /// The bounds that have these ranges.
    #[inline(always)]
    pub(crate) fn bounds(self) -> Bounds
        ensures { result ≡ bounds_by self }
    {
        Bounds {
            x: self.x.range(),
            y: self.y.range(),
            z: self.z.range(),
            m: self.m.range(),
        }
    }

    /// Widens the ranges of x and y by a run, two coordinates per iteration. If the order is a constant, the extremes
    /// stay in registers.
    #[tactic(auto, using(crate::proofs::Widening::run_laws))]
    #[inline(always)]
    fn widen_plane_by(&mut self, run: Run<'_>)
        requires plane { 16 ≤ run.size }
        requires room { HasRoom (bounds_by self.old) run.count }
        ensures { WidensPlane self.old self.new (run_coordinates run.entry) }
    {
        let mut x = self.x.counting(run.count);
        let mut y = self.y.counting(run.count);
        let mut left = run;
        let mut pairs = run.count / 2;
        while pairs > 0 {
            x = x.with(left.first_word(0));
            y = y.with(left.first_word(1));
            let second = left.behind_first();
            x = x.with(second.first_word(0));
            y = y.with(second.first_word(1));
            left = second.behind_first();
            pairs -= 1;
        }
        if left.count > 0 {
            x = x.with(left.first_word(0));
            y = y.with(left.first_word(1));
        }
        self.x = x;
        self.y = y;
    }

    /// As `widen_plane_by`, with a loop for each order.
    #[tactic(auto, using(crate::proofs::Widening::run_laws))]
    #[inline(always)]
    fn widen_plane(&mut self, order: Endianness, size: usize, count: u32, bytes: &[u8])
        requires plane { 16 ≤ size }
        requires whole { size * count ≤ length bytes.now }
        requires room { HasRoom (bounds_by self.old) count }
        ensures { WidensPlane self.old self.new (rows order size count bytes.now) }
    {
        by_order!(
            order,
            self.widen_plane_by(Run::of(order, size, count, bytes))
        )
    }

    /// Widens the ranges by so many coordinates of this dimension.
    #[tactic(auto, using(crate::proofs::Widening::place_there))]
    #[inline(always)]
    pub(crate) fn widen(
        &mut self,
        dimension: Dimension,
        order: Endianness,
        count: u32,
        bytes: &[u8],
    )
        requires whole { 8 * width dimension * count ≤ length bytes.now }
        requires room { HasRoom (bounds_by self.old) count }
        ensures { WidensBounds self.old self.new dimension
            (coordinates order dimension count bytes.now) }
    {
        let run = Run::of(order, dimension.coordinate_size(), count, bytes);
        self.widen_plane(run.order, run.size, run.count, run.bytes);
        self.z.widen_at(place_of_z(dimension), run);
        self.m.widen_at(place_of_m(dimension), run);
    }
}
