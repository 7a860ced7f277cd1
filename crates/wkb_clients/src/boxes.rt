//! The box around a polygon's exterior, by `Range::with_word` for each coordinate: it holds each of their numbers.

ghost use Rattle.wkb_clients.specs.Boxes.{IsBoxOfRing, IsBoxOf, HoldsExterior};

use wkb::check::Range;
use wkb::geom::{CoordTrait, LineStringTrait, PolygonTrait};
use wkb::reader::{LinearRing, Polygon};

/// The ranges of x and of y.
#[derive(Clone, Copy)]
pub struct BoundingBox {
    pub x: Range,
    pub y: Range,
}

/// The box of a ring.
#[tactic(auto, using(wkb::proofs::Ranges::widening_laws))]
pub fn ring_box(ring: &LinearRing) -> BoundingBox
    ensures { IsBoxOfRing ring.now result }
{
    let mut x = Range::empty();
    let mut y = Range::empty();
    for i in 0..ring.num_coords() {
        let coord = ring.coord_at(i);
        x = x.with_word(coord.x());
        y = y.with_word(coord.y());
    }
    BoundingBox { x, y }
}

/// The box of a polygon's exterior: of no number where the polygon has no ring. Each number of the exterior is
/// within it.
pub fn exterior_box(polygon: &Polygon) -> BoundingBox
    ensures ranges { IsBoxOf polygon.now result }
    ensures holds { HoldsExterior polygon.now result }
{
    match polygon.exterior() {
        Some(ring) => ring_box(&ring),
        None => BoundingBox {
            x: Range::empty(),
            y: Range::empty(),
        },
    }
}
