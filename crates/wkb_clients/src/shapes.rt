//! Shapes of a map, made of places: what a program has that knows nothing of WKB. Each implements the trait of its
//! geometry type: coordinates are returned by value, rings too, and polygons by reference.

ghost use Rattle.std.specs.Prelude.{map};
ghost use Rattle.wkb.specs.Geometries.{IsItemAt};
ghost use Rattle.wkb.specs.Prelude.traits.{Xy};
ghost use Rattle.wkb_clients.specs.Shapes.{path_words, area_rings, region_rings};
ghost use Rattle.wkb_clients.specs.LawfulShapes.{path_lawful, area_lawful, region_lawful};

use wkb::geom::{Dimensioned, Dimensions, LineStringTrait, MultiPolygonTrait, PolygonTrait};
use wkb_cases::places::Place;

/// Places one after another: a line string, or a ring.
#[derive(Clone, Copy)]
pub struct Path<'m> {
    pub places: &'m [Place],
}

/// What an outline bounds without its holes: a polygon. Nothing is a polygon without rings.
#[derive(Clone, Copy)]
pub enum Area<'m> {
    Nothing,
    Within {
        outline: Path<'m>,
        holes: &'m [Path<'m>],
    },
}

/// Areas together: a multi polygon.
#[derive(Clone, Copy)]
pub struct Region<'m> {
    pub areas: &'m [Area<'m>],
}

impl Dimensioned for Path<'_> {
    ghost dimensions = { λ path. Xy };

    fn dim(&self) -> Dimensions {
        Dimensions::Xy
    }
}

impl LineStringTrait for Path<'_> {
    type CoordType = Place;

    ghost coordinates = { path_words };

    ghost lawful = { path_lawful };

    fn num_coords(&self) -> usize {
        self.places.len()
    }

    fn coord(&self, i: usize) -> Option<Place> {
        if i < self.places.len() {
            Some(self.places[i])
        } else {
            None
        }
    }

    fn coord_at(&self, i: usize) -> Place {
        self.places[i]
    }
}

impl Dimensioned for Area<'_> {
    ghost dimensions = { λ area. Xy };

    fn dim(&self) -> Dimensions {
        Dimensions::Xy
    }
}

impl<'m> PolygonTrait for Area<'m> {
    type RingType = Path<'m>;

    ghost rings = { area_rings };

    ghost lawful = { area_lawful };

    fn num_interiors(&self) -> usize {
        match self {
            Area::Nothing => 0,
            Area::Within { holes, .. } => holes.len(),
        }
    }

    fn exterior(&self) -> Option<Path<'m>> {
        match self {
            Area::Nothing => None,
            Area::Within { outline, .. } => Some(*outline),
        }
    }

    fn interior(&self, i: usize) -> Option<Path<'m>> {
        match self {
            Area::Nothing => None,
            Area::Within { holes, .. } => path_at(holes, i),
        }
    }
}

/// The path at an index, if there is one.
fn path_at<'m>(paths: &'m [Path<'m>], i: usize) -> Option<Path<'m>>
    ensures { IsItemAt path_words result (map path_words paths.now) i }
{
    if i < paths.len() {
        Some(paths[i])
    } else {
        None
    }
}

impl Dimensioned for Region<'_> {
    ghost dimensions = { λ region. Xy };

    fn dim(&self) -> Dimensions {
        Dimensions::Xy
    }
}

impl<'m> MultiPolygonTrait for Region<'m> {
    type InnerPolygonType = Area<'m>;

    ghost polygons = { region_rings };

    ghost lawful = { region_lawful };

    fn num_polygons(&self) -> usize {
        self.areas.len()
    }

    fn polygon(&self, i: usize) -> Option<&Area<'m>> {
        self.areas.get(i)
    }
}
