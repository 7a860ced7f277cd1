//! Rectangles between two corners.

ghost use Rattle.std.specs.Prelude.{◌≡◌, ◌↔◌, IfSome, IsSome};
ghost use Rattle.wkb_geom.specs.Found.{HasDimensions};

use crate::coord::Coord;
use wkb_geom::{Dimensioned, Dimensions, RectTrait};

/// A rectangle between its least and its greatest corner.
#[derive(Debug, Clone, Copy)]
pub struct Rect<'w> {
    min: Coord<'w>,
    max: Coord<'w>,
    ghost one_dimension: { max.dim ≡ min.dim },
}

impl<'w> Rect<'w> {
    ghost use Rattle.wkb_plain.specs.Kinds.{coord_dimensions, coord_words, rect_dimensions};
    ghost use Rattle.wkb_plain.specs.Kinds.{rect_min, rect_max};

    /// The rectangle between two corners, which are taken as they are. None if they differ in
    /// dimension.
    pub fn new(min: Coord<'w>, max: Coord<'w>) -> Option<Rect<'w>>
        ensures some { IsSome result ↔ (coord_dimensions max.entry ≡ coord_dimensions min.entry) }
        ensures dimensions { HasDimensions rect_dimensions result (coord_dimensions min.entry) }
        ensures min { IfSome result (λ r. rect_min r ≡ coord_words min.entry) }
        ensures max { IfSome result (λ r. rect_max r ≡ coord_words max.entry) }
    {
        if max.dim != min.dim {
            return None;
        }
        Some(Rect { min, max })
    }
}

impl Dimensioned for Rect<'_> {
    ghost use Rattle.wkb_plain.specs.Kinds.{rect_dimensions};

    ghost dimensions = { rect_dimensions };

    fn dim(&self) -> Dimensions {
        self.min.dim
    }
}

impl<'w> RectTrait for Rect<'w> {
    ghost use Rattle.wkb_plain.specs.Kinds.{rect_min, rect_max};
    ghost use Rattle.wkb_plain.specs.Lawful.{rect_lawful};

    type CoordType = Coord<'w>;

    ghost min_words = { rect_min };

    ghost max_words = { rect_max };

    ghost lawful = { rect_lawful };

    fn min(&self) -> Coord<'w> {
        self.min
    }

    fn max(&self) -> Coord<'w> {
        self.max
    }
}
