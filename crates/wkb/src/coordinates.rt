//! A walk over all coordinates of a geometry of any kind, at every level and in order. It takes no memory.

ghost use Rattle.std.specs.Prelude.{◌≡◌, ◌<◌, ◌∷◌, [], Some, List, ⊤, slice_get, length, flat_map};
ghost use Rattle.wkb.specs.Coordinates.{VisitsOrStops, of_point, of_parts, coordinates_of, coordinates_of_each};
ghost use Rattle.wkb.specs.Reads.{ring_seen, seen_points, values};
ghost use Rattle.wkb.specs.Values.{Coordinate};

use std::alloc::AllocError;
use wkb_geom::{
    CoordTrait, GeometryTrait, GeometryType, LineStringTrait, MultiLineStringTrait,
    MultiPointTrait, MultiPolygonTrait, PointTrait, PolygonTrait,
};
use wkb_read::geometry::Wkb;
use wkb_view::linear_ring::LinearRing;
use wkb_view::multi_line_string::MultiLineString;
use wkb_view::multi_point::MultiPoint;
use wkb_view::multi_polygon::MultiPolygon;
use wkb_view::polygon::Polygon;

/// What is done with each coordinate.
pub trait Visitor {
    // What is known once these coordinates were visited, and no others.
    ghost has_visited: { Self → List Coordinate → Type 0 };

    // What is known once a visit returned an error, and none came after it.
    ghost has_stopped: { Self → Type 0 } = { λ _. ⊤ };

    /// Visits a coordinate.
    ///
    /// Fails where it has no memory, which ends the walk.
    fn visit<C: CoordTrait>(&mut self, coord: &C) -> Result<(), AllocError>
        ensures { VisitsOrStops has_visited has_stopped self.old self.new
            (C.words coord.now ∷ []) result };
}

/// Visits the coordinate of a point; an empty one has none.
#[tactic(auto, using(crate::proofs::Visits::visits_none))]
fn visit_point<V: Visitor, P: PointTrait>(visitor: &mut V, point: &P) -> Result<(), AllocError>
    ensures { VisitsOrStops V.has_visited V.has_stopped visitor.old visitor.new
        (of_point (P.coordinate point.now)) result }
{
    match point.coord() {
        Some(coord) => visitor.visit(&coord),
        None => Ok(()),
    }
}

/// Visits the coordinates of a line string, or of a ring.
#[tactic(auto, using(crate::proofs::Visits::visiting_laws))]
fn visit_line<V: Visitor, L: LineStringTrait>(visitor: &mut V, line: &L) -> Result<(), AllocError>
    ensures { VisitsOrStops V.has_visited V.has_stopped visitor.old visitor.new
        (L.coordinates line.now) result }
{
    for i in 0..line.num_coords() {
        visitor.visit(&line.coord_at(i))?;
    }
    Ok(())
}

/// The ring of this number, the exterior first.
fn ring_at<'a>(polygon: &Polygon<'a>, i: usize) -> LinearRing<'a>
    requires { i < length polygon.now.parts }
    ensures { slice_get polygon.now.parts i ≡ Some (ring_seen result) }
{
    if i == 0 {
        polygon.exterior().unwrap()
    } else {
        polygon.interior(i - 1).unwrap()
    }
}

/// Visits the coordinates of a polygon's rings.
#[tactic(auto, using(crate::proofs::Visits::visiting_laws))]
fn visit_rings<V: Visitor>(visitor: &mut V, polygon: &Polygon) -> Result<(), AllocError>
    ensures { VisitsOrStops V.has_visited V.has_stopped visitor.old visitor.new
        (of_parts polygon.now.parts) result }
{
    for i in 0..polygon.num_rings() {
        visit_line(visitor, &ring_at(polygon, i))?;
    }
    Ok(())
}

/// Visits the coordinates of the points that aren't empty.
#[tactic(auto, using(crate::proofs::Visits::visiting_laws))]
fn visit_points<V: Visitor>(visitor: &mut V, multi: &MultiPoint) -> Result<(), AllocError>
    ensures { VisitsOrStops V.has_visited V.has_stopped visitor.old visitor.new
        (flat_map of_point (seen_points multi.now)) result }
{
    for i in 0..multi.num_points() {
        visit_point(visitor, &multi.point(i).unwrap())?;
    }
    Ok(())
}

/// Visits the coordinates of line strings.
#[tactic(auto, using(crate::proofs::Visits::visiting_laws))]
fn visit_lines<V: Visitor>(visitor: &mut V, multi: &MultiLineString) -> Result<(), AllocError>
    ensures { VisitsOrStops V.has_visited V.has_stopped visitor.old visitor.new
        (of_parts multi.now.parts) result }
{
    for i in 0..multi.num_line_strings() {
        visit_line(visitor, &multi.line_string(i).unwrap())?;
    }
    Ok(())
}

/// Visits the coordinates of polygons.
#[tactic(auto, using(crate::proofs::Visits::visiting_laws))]
fn visit_polygons<V: Visitor>(visitor: &mut V, multi: &MultiPolygon) -> Result<(), AllocError>
    ensures { VisitsOrStops V.has_visited V.has_stopped visitor.old visitor.new
        (flat_map of_parts multi.now.parts) result }
{
    for i in 0..multi.num_polygons() {
        visit_rings(visitor, multi.polygon(i).unwrap())?;
    }
    Ok(())
}

/// Visits all coordinates of a geometry, at every level and in order. An empty point has none.
///
/// Fails where a visit does.
#[cycle(walk)]
pub fn visit_coordinates<V: Visitor>(visitor: &mut V, geometry: &Wkb) -> Result<(), AllocError>
    ensures { VisitsOrStops V.has_visited V.has_stopped visitor.old visitor.new
        (coordinates_of geometry.now.value) result }
{
    match geometry.as_type() {
        GeometryType::Point(point) => visit_point(visitor, point),
        GeometryType::LineString(line) => visit_line(visitor, line),
        GeometryType::Polygon(polygon) => visit_rings(visitor, polygon),
        GeometryType::MultiPoint(multi) => visit_points(visitor, multi),
        GeometryType::MultiLineString(multi) => visit_lines(visitor, multi),
        GeometryType::MultiPolygon(multi) => visit_polygons(visitor, multi),
        GeometryType::GeometryCollection(members) => visit_members(visitor, members),
        GeometryType::Rect(_) | GeometryType::Triangle(_) | GeometryType::Line(_) => unreachable!(),
    }
}

/// Visits all coordinates of these geometries.
#[cycle(walk)]
#[tactic(auto, using(crate::proofs::Visits::visiting_laws))]
fn visit_members<V: Visitor>(visitor: &mut V, members: &[Wkb]) -> Result<(), AllocError>
    ensures { VisitsOrStops V.has_visited V.has_stopped visitor.old visitor.new
        (coordinates_of_each (values members.now)) result }
{
    for member in members {
        visit_coordinates(visitor, member)?;
    }
    Ok(())
}
