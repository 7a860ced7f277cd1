//! Polygons one after another.

ghost use Rattle.std.specs.Prelude.{◌≡◌, ◌+◌, ◌<◌, ◌^◌, ◌↔◌, length, IfSome, IsSome, Some, slice_get};
ghost use Rattle.std.specs.Option.{option_map};
ghost use Rattle.wkb_geom.specs.Found.{HasDimensions};
ghost use Rattle.wkb_levels.specs.Cuts.{only, only_each};
ghost use Rattle.wkb_levels.specs.EndLists.{start_of};
ghost use Rattle.wkb_levels.specs.RingLists.{rings_dimensions, rings_rings, FitRings};

use crate::ends::{Ends, number_of_items};
use crate::rings::Rings;
use wkb_geom::{Dimensioned, Dimensions};
use wkb_write::MadePolygons;

/// Polygons one after another, by their ends, counted in rings. The first ring has the number at which the first
/// polygon begins.
#[derive(Debug, Clone, Copy)]
pub struct Polygons<'w> {
    rings: Rings<'w>,
    ends: Ends<'w>,
    ghost fit: { FitRings rings ends },
}

#[tactic(auto, using(crate::proofs::PolygonLaws::polygon_laws))]
impl<'w> Polygons<'w> {
    ghost use Rattle.wkb_levels.specs.PolygonLists.{polygons_of, polygons_dimensions, polygons_polygons};

    /// The polygons of these rings that end here. None if the ends fall or pass the rings.
    pub fn new(rings: Rings<'w>, ends: Ends<'w>) -> Option<Polygons<'w>>
        requires { start_of ends + length (rings_rings rings) < 2 ^ 64 }
        ensures some { IsSome result ↔ FitRings rings.entry ends.entry }
        ensures dimensions { HasDimensions polygons_dimensions result
            (rings_dimensions rings.entry) }
        ensures polygons { IfSome result
            (λ p. polygons_polygons p ≡ polygons_of rings.entry ends.entry) }
    {
        if !ends.are_within(number_of_items(ends.start() + rings.len() as u64)) {
            return None;
        }
        Some(Polygons { rings, ends })
    }

    /// The polygon at an index, which has to be below their number.
    pub fn polygon(&self, i: usize) -> Rings<'w>
        requires { i < length (polygons_polygons self.now) }
        ensures value { slice_get (polygons_polygons self.now) i ≡ Some (rings_rings result) }
        ensures dimensions { rings_dimensions result ≡ polygons_dimensions self.now }
    {
        let first = self.ends.start();
        let from = self.ends.begin(i) - first;
        let to = self.ends.end(i) - first;
        self.rings.part(from as usize, to as usize)
    }

    /// The one polygon, if there is one.
    pub fn only(&self) -> Option<Rings<'w>>
        ensures value { option_map rings_rings result ≡ only (polygons_polygons self.now) }
        ensures dimensions { HasDimensions rings_dimensions result (polygons_dimensions self.now) }
    {
        if self.ends.len() == 1 {
            Some(self.polygon(0))
        } else {
            None
        }
    }

    /// The rings of all polygons, if each polygon has one.
    pub fn rings_one_each(&self) -> Option<Rings<'w>>
        ensures value { option_map rings_rings result ≡ only_each (polygons_polygons self.now) }
        ensures dimensions { HasDimensions rings_dimensions result (polygons_dimensions self.now) }
    {
        if !self.ends.are_ones() {
            return None;
        }
        Some(self.rings.part(0, self.ends.len()))
    }
}

impl Dimensioned for Polygons<'_> {
    ghost use Rattle.wkb_levels.specs.PolygonLists.{polygons_dimensions};

    ghost dimensions = { polygons_dimensions };

    fn dim(&self) -> Dimensions {
        self.rings.dim()
    }
}

#[tactic(auto, using(crate::proofs::Pieces::piece_laws))]
impl<'w> MadePolygons for Polygons<'w> {
    ghost use Rattle.wkb_levels.specs.PolygonLists.{polygons_polygons};
    ghost use Rattle.wkb_levels.specs.Lawful.{polygons_lawful};

    type MadePolygon = Rings<'w>;

    ghost polygons = { polygons_polygons };

    ghost lawful = { polygons_lawful };

    fn num_polygons(&self) -> usize {
        self.ends.len()
    }

    fn polygon_at(&self, i: usize) -> Rings<'w> {
        self.polygon(i)
    }
}
