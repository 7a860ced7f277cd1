//! Polygons, which borrow their rings.

ghost use Rattle.std.specs.Prelude.{◌≡◌, ◌↔◌, IsSome, All};
ghost use Rattle.wkb_geom.specs.Found.{HasDimensions};

use crate::line_string::LineString;
use crate::parts::all_have;
use wkb_geom::{Dimensioned, Dimensions, PolygonTrait};

/// A polygon: its first ring is the exterior.
#[derive(Debug, Clone, Copy)]
pub struct Polygon<'w> {
    dim: Dimensions,
    rings: &'w [LineString<'w>],
    ghost one_dimension: { All (λ r. r.dim ≡ dim) rings.now },
}

impl<'w> Polygon<'w> {
    ghost use Rattle.wkb_plain.specs.Kinds.{ArePartsFor, ShowsParts};
    ghost use Rattle.wkb_plain.specs.Kinds.{line_string_dimensions, line_string_coordinates};
    ghost use Rattle.wkb_plain.specs.Kinds.{polygon_dimensions, polygon_rings};

    /// The polygon of these rings, the exterior first. None if the dimension has no words, or a
    /// ring has another dimension.
    pub fn new(dim: Dimensions, rings: &'w [LineString<'w>]) -> Option<Polygon<'w>>
        ensures some { IsSome result ↔ ArePartsFor line_string_dimensions dim rings.now }
        ensures dimensions { HasDimensions polygon_dimensions result dim }
        ensures rings { ShowsParts polygon_rings result line_string_coordinates rings.now }
    {
        if dim.size() == 0 || !all_have(rings, dim) {
            return None;
        }
        Some(Polygon { dim, rings })
    }
}

impl Dimensioned for Polygon<'_> {
    ghost use Rattle.wkb_plain.specs.Kinds.{polygon_dimensions};

    ghost dimensions = { polygon_dimensions };

    fn dim(&self) -> Dimensions {
        self.dim
    }
}

impl<'w> PolygonTrait for Polygon<'w> {
    ghost use Rattle.wkb_plain.specs.Kinds.{polygon_rings};
    ghost use Rattle.wkb_plain.specs.Lawful.{polygon_lawful};

    type RingType = LineString<'w>;

    ghost rings = { polygon_rings };

    ghost lawful = { polygon_lawful };

    fn num_interiors(&self) -> usize {
        self.rings.len().saturating_sub(1)
    }

    fn exterior(&self) -> Option<LineString<'w>> {
        self.rings.first().copied()
    }

    fn interior(&self, i: usize) -> Option<LineString<'w>> {
        if i < self.num_interiors() {
            Some(self.rings[i + 1])
        } else {
            None
        }
    }
}
