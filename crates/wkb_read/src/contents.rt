//! How many coordinates and parts a geometry has.

ghost use Rattle.std.specs.Prelude.{◌≡◌, sum_by, length};
ghost use Rattle.wkb_read.specs.Contents.{AreContents, AreContentsOfEach, AreContentsOfPolygons};

use crate::geometry::{GeometryCollection, View, Wkb};
use wkb_geom::{LineStringTrait, MultiLineStringTrait, MultiPointTrait, MultiPolygonTrait};
use wkb_view::multi_line_string::MultiLineString;
use wkb_view::multi_polygon::MultiPolygon;

/// How many coordinates there are, and how many rings and members, at every level.
#[derive(Clone, Copy)]
pub(crate) struct Contents {
    pub(crate) coordinates: usize,
    pub(crate) members: usize,
}

/// The coordinates of all line strings. There are fewer of them than bytes, so the sum can't overflow; the calls of
/// `buf` and `size` give the proof those bounds.
fn of_line_strings(multi: &MultiLineString<'_>) -> usize
    ensures { result ≡ sum_by length multi.now.parts }
{
    let _bytes = multi.buf();
    let _size = multi.size();
    let mut coordinates = 0;
    for i in 0..multi.num_line_strings() {
        coordinates += multi.line_string(i).unwrap().num_coords();
    }
    coordinates
}

/// The coordinates of all polygons, and the polygons with their rings. Both are fewer than the bytes; the calls of
/// `buf` and `size` give the proof those bounds.
fn of_polygons(multi: &MultiPolygon<'_>) -> Contents
    ensures { AreContentsOfPolygons multi.now.parts result }
{
    let _bytes = multi.buf();
    let _size = multi.size();
    let mut coordinates = 0;
    let mut members = 0;
    for i in 0..multi.num_polygons() {
        let polygon = multi.polygon(i).unwrap();
        coordinates += polygon.num_coords();
        members += 1 + polygon.num_rings();
    }
    Contents {
        coordinates,
        members,
    }
}

impl GeometryCollection<'_> {
    ghost use Rattle.wkb_read.specs.Contents.{AreContentsOfEach};

    /// How many coordinates its members have, and how many parts these are, themselves counted. Each number is less
    /// than the length in bytes; the call of `size` gives the proof that bound.
    #[cycle(contents)]
    fn contents(&self) -> Contents
        ensures { AreContentsOfEach self.now.parts result }
    {
        let _size = self.size();
        let mut coordinates = 0;
        let mut members = 0;
        for member in &self.members {
            let own = member.contents();
            coordinates += own.coordinates;
            members += 1 + own.members;
        }
        Contents {
            coordinates,
            members,
        }
    }
}

impl Wkb<'_> {
    ghost use Rattle.std.specs.Prelude.{◌≡◌, ◌+◌};
    ghost use Rattle.wkb_geom.specs.Counted.{coordinate_count};
    ghost use Rattle.wkb_geom.specs.Values.{member_count};
    ghost use Rattle.wkb_read.specs.Contents.{AreContents};

    /// How many coordinates it has, and how many rings and members, at every level.
    #[cycle(contents)]
    fn contents(&self) -> Contents
        ensures { AreContents self.now.value result }
    {
        match &self.kind {
            View::Point(_) => Contents {
                coordinates: 1,
                members: 0,
            },
            View::LineString(line_string) => Contents {
                coordinates: line_string.num_coords(),
                members: 0,
            },
            View::Polygon(polygon) => Contents {
                coordinates: polygon.num_coords(),
                members: polygon.num_rings(),
            },
            View::MultiPoint(multi) => Contents {
                coordinates: multi.num_points(),
                members: multi.num_points(),
            },
            View::MultiLineString(multi) => Contents {
                coordinates: of_line_strings(multi),
                members: multi.num_line_strings(),
            },
            View::MultiPolygon(multi) => of_polygons(multi),
            View::GeometryCollection(collection) => collection.contents(),
        }
    }

    /// The number of coordinates at every level. A point has one, an empty point too.
    pub fn num_coords(&self) -> usize
        ensures { result ≡ coordinate_count self.now.value }
    {
        self.contents().coordinates
    }

    /// The number of parts: itself, and its rings and members at every level. They are fewer than its bytes.
    #[tactic(auto, using(crate::proofs::Sums::bytes_counted))]
    pub fn num_parts(&self) -> usize
        ensures { result ≡ 1 + member_count self.now.value }
    {
        // The proof takes the bound of this sum from the length of `buf`.
        let _bytes = self.buf();
        1 + self.contents().members
    }
}
