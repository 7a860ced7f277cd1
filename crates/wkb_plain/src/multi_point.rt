//! Points of one dimension.

ghost use Rattle.std.specs.Prelude.{◌≡◌, ◌↔◌, IsSome, All};
ghost use Rattle.wkb_geom.specs.Found.{HasDimensions};

use crate::parts::all_have;
use crate::point::Point;
use wkb_geom::{Dimensioned, Dimensions, MultiPointTrait};

/// Points of one dimension.
#[derive(Debug, Clone, Copy)]
pub struct MultiPoint<'w> {
    dim: Dimensions,
    points: &'w [Point<'w>],
    ghost one_dimension: { All (λ p. p.dim ≡ dim) points.now },
}

impl<'w> MultiPoint<'w> {
    ghost use Rattle.wkb_plain.specs.Kinds.{ArePartsFor, ShowsParts, point_dimensions, point_coordinate};
    ghost use Rattle.wkb_plain.specs.Kinds.{multi_point_dimensions, multi_point_points};

    /// These points, in order. None if the dimension has no words, or a point has another
    /// dimension.
    pub fn new(dim: Dimensions, points: &'w [Point<'w>]) -> Option<MultiPoint<'w>>
        ensures some { IsSome result ↔ ArePartsFor point_dimensions dim points.now }
        ensures dimensions { HasDimensions multi_point_dimensions result dim }
        ensures points { ShowsParts multi_point_points result point_coordinate points.now }
    {
        if dim.size() == 0 || !all_have(points, dim) {
            return None;
        }
        Some(MultiPoint { dim, points })
    }
}

impl Dimensioned for MultiPoint<'_> {
    ghost use Rattle.wkb_plain.specs.Kinds.{multi_point_dimensions};

    ghost dimensions = { multi_point_dimensions };

    fn dim(&self) -> Dimensions {
        self.dim
    }
}

#[tactic(auto, using(crate::proofs::Lookups::lookup_laws))]
impl<'w> MultiPointTrait for MultiPoint<'w> {
    ghost use Rattle.wkb_plain.specs.Kinds.{multi_point_points};
    ghost use Rattle.wkb_plain.specs.Lawful.{multi_point_lawful};

    type InnerPointType = Point<'w>;

    ghost points = { multi_point_points };

    ghost lawful = { multi_point_lawful };

    fn num_points(&self) -> usize {
        self.points.len()
    }

    fn point(&self, i: usize) -> Option<Point<'w>> {
        self.points.get(i).copied()
    }
}
