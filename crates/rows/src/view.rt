//! What the calls of a view return. Of each list of parts all are shown, and the `None` past the last.

use crate::line::Line;
use crate::members::show_members;
use crate::reading::show_geometry;
use wkb::geom::{
    CoordTrait, GeometryCollectionTrait, GeometryTrait, GeometryType, LineStringTrait,
    MultiLineStringTrait, MultiPointTrait, MultiPolygonTrait, PointTrait, PolygonTrait,
};
use wkb::reader::{
    Coord, GeometryCollection, LineString, LinearRing, MultiLineString, MultiPoint, MultiPolygon,
    Point, Polygon, Wkb,
};

fn show_coord(line: &mut Line, coord: Option<Coord<'_>>) {
    let Some(coord) = coord else {
        return line.say(" None");
    };
    line.show(" (", coord.dimension());
    line.show(" ", coord.byte_order());
    line.show(" size ", coord.size());
    line.show_bytes(" bytes ", coord.coord_slice());
    let width = coord.dimension().width();
    for n in 0..width {
        line.show_word(coord.nth(n));
    }
    line.show_word(coord.nth(width));
    line.say(")");
}

fn show_point(line: &mut Line, point: Option<Point<'_>>) {
    let Some(point) = point else {
        return line.say(" None");
    };
    line.show(" [Point ", point.dimension());
    line.show(" ", point.byte_order());
    line.show(" size ", point.size());
    line.show(" empty ", point.is_empty());
    line.show_bytes(" bytes ", point.coord_slice());
    show_coord(line, point.coord());
    line.say("]");
}

/// Shows the coordinates of a line string or a ring.
fn show_coords<'a, L: LineStringTrait<CoordType = Coord<'a>>>(line: &mut Line, view: &L) {
    let count = view.num_coords();
    line.show(" coordinates ", count);
    for i in 0..count {
        show_coord(line, view.coord(i));
    }
    show_coord(line, view.coord(count));
    line.say("]");
}

fn show_line_string(line: &mut Line, view: Option<LineString<'_>>) {
    let Some(view) = view else {
        return line.say(" None");
    };
    line.show(" [LineString ", view.dimension());
    line.show(" ", view.byte_order());
    line.show(" size ", view.size());
    line.say(" offsets");
    let count = view.num_coords();
    for i in 0..count {
        line.show(" ", view.coord_offset(i as u64));
    }
    line.show(" ", view.coord_offset(count as u64));
    line.show_bytes(" bytes ", view.coords_slice());
    show_coords(line, &view);
}

fn show_ring(line: &mut Line, ring: Option<LinearRing<'_>>) {
    let Some(ring) = ring else {
        return line.say(" None");
    };
    line.show(" [LinearRing ", ring.dimension());
    line.show(" ", ring.byte_order());
    line.show(" size ", ring.size());
    line.say(" offsets");
    let count = ring.num_coords();
    for i in 0..count {
        line.show(" ", ring.coord_offset(i as u64));
    }
    line.show(" ", ring.coord_offset(count as u64));
    line.show_bytes(" bytes ", ring.coords_slice());
    show_coords(line, &ring);
}

fn show_polygon(line: &mut Line, polygon: Option<&Polygon<'_>>) {
    let Some(polygon) = polygon else {
        return line.say(" None");
    };
    line.show(" [Polygon ", polygon.dimension());
    line.show(" size ", polygon.size());
    line.say(" exterior");
    show_ring(line, polygon.exterior());
    let count = polygon.num_interiors();
    line.show(" interiors ", count);
    for i in 0..count {
        show_ring(line, polygon.interior(i));
    }
    show_ring(line, polygon.interior(count));
    line.say("]");
}

fn show_points(line: &mut Line, multi: &MultiPoint<'_>) {
    let count = multi.num_points();
    line.show(" points ", count);
    for i in 0..count {
        show_point(line, multi.point(i));
    }
    show_point(line, multi.point(count));
    line.say("]");
}

fn show_multi_point(line: &mut Line, multi: &MultiPoint<'_>) {
    line.show(" [MultiPoint ", multi.dimension());
    line.show(" size ", multi.size());
    line.say(" offsets");
    let count = multi.num_points();
    for i in 0..count {
        line.show(" ", multi.point_offset(i as u64));
    }
    line.show(" ", multi.point_offset(count as u64));
    show_points(line, multi);
}

fn show_multi_line_string(line: &mut Line, multi: &MultiLineString<'_>) {
    line.show(" [MultiLineString ", multi.dimension());
    line.show(" size ", multi.size());
    let count = multi.num_line_strings();
    line.show(" line strings ", count);
    for i in 0..count {
        show_line_string(line, multi.line_string(i));
    }
    show_line_string(line, multi.line_string(count));
    line.say("]");
}

fn show_multi_polygon(line: &mut Line, multi: &MultiPolygon<'_>) {
    line.show(" [MultiPolygon ", multi.dimension());
    line.show(" size ", multi.size());
    let count = multi.num_polygons();
    line.show(" polygons ", count);
    for i in 0..count {
        show_polygon(line, multi.polygon(i));
    }
    show_polygon(line, multi.polygon(count));
    line.say("]");
}

/// Shows the view of a geometry; of a collection only the bytes of its members.
fn show_leaf(line: &mut Line, wkb: &Wkb<'_>) {
    match wkb.as_type() {
        GeometryType::Point(point) => show_point(line, Some(*point)),
        GeometryType::LineString(line_string) => show_line_string(line, Some(*line_string)),
        GeometryType::Polygon(polygon) => show_polygon(line, Some(polygon)),
        GeometryType::MultiPoint(multi) => show_multi_point(line, multi),
        GeometryType::MultiLineString(multi) => show_multi_line_string(line, multi),
        GeometryType::MultiPolygon(multi) => show_multi_polygon(line, multi),
        _ => show_members(line, wkb),
    }
}

/// Shows a member of a collection.
fn show_member(line: &mut Line, member: Option<&Wkb<'_>>) {
    let Some(member) = member else {
        return line.say(" None");
    };
    line.say(" [");
    show_geometry(line, member);
    show_leaf(line, member);
    line.say("]");
}

fn show_collection(line: &mut Line, collection: &GeometryCollection<'_>) {
    line.show(" [GeometryCollection ", collection.dimension());
    line.show(" size ", collection.size());
    line.show(" listed ", collection.geometries().len());
    let count = collection.num_geometries();
    line.show(" geometries ", count);
    for i in 0..count {
        show_member(line, collection.geometry(i));
    }
    show_member(line, collection.geometry(count));
    line.say("]");
}

/// Shows what the calls of the view of a geometry return.
pub fn show_view(line: &mut Line, wkb: &Wkb<'_>) {
    match wkb.as_geometry_collection() {
        Some(collection) => show_collection(line, collection),
        None => show_leaf(line, wkb),
    }
}
