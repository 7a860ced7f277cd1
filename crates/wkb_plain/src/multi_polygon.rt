//! Polygons of one dimension.

ghost use Rattle.std.specs.Prelude.{◌≡◌, ◌↔◌, IsSome, All};
ghost use Rattle.wkb_geom.specs.Found.{HasDimensions};

use crate::parts::all_have;
use crate::polygon::Polygon;
use wkb_geom::{Dimensioned, Dimensions, MultiPolygonTrait};

/// Polygons of one dimension.
#[derive(Debug, Clone, Copy)]
pub struct MultiPolygon<'w> {
    dim: Dimensions,
    polygons: &'w [Polygon<'w>],
    ghost one_dimension: { All (λ p. p.dim ≡ dim) polygons.now },
}

impl<'w> MultiPolygon<'w> {
    ghost use Rattle.wkb_plain.specs.Kinds.{ArePartsFor, ShowsParts, polygon_dimensions, polygon_rings};
    ghost use Rattle.wkb_plain.specs.Kinds.{multi_polygon_dimensions, multi_polygon_polygons};

    /// These polygons, in order. None if the dimension has no words, or a polygon has another
    /// dimension.
    pub fn new(dim: Dimensions, polygons: &'w [Polygon<'w>]) -> Option<MultiPolygon<'w>>
        ensures some { IsSome result ↔ ArePartsFor polygon_dimensions dim polygons.now }
        ensures dimensions { HasDimensions multi_polygon_dimensions result dim }
        ensures polygons { ShowsParts multi_polygon_polygons result polygon_rings polygons.now }
    {
        if dim.size() == 0 || !all_have(polygons, dim) {
            return None;
        }
        Some(MultiPolygon { dim, polygons })
    }
}

impl Dimensioned for MultiPolygon<'_> {
    ghost use Rattle.wkb_plain.specs.Kinds.{multi_polygon_dimensions};

    ghost dimensions = { multi_polygon_dimensions };

    fn dim(&self) -> Dimensions {
        self.dim
    }
}

impl<'w> MultiPolygonTrait for MultiPolygon<'w> {
    ghost use Rattle.wkb_plain.specs.Kinds.{multi_polygon_polygons};
    ghost use Rattle.wkb_plain.specs.Lawful.{multi_polygon_lawful};

    type InnerPolygonType = Polygon<'w>;

    ghost polygons = { multi_polygon_polygons };

    ghost lawful = { multi_polygon_lawful };

    fn num_polygons(&self) -> usize {
        self.polygons.len()
    }

    fn polygon(&self, i: usize) -> Option<&Polygon<'w>> {
        self.polygons.get(i)
    }
}
