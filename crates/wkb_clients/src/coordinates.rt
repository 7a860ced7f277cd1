//! All coordinates of a geometry of any kind, as the points of one multi point.

ghost use Rattle.std.specs.Prelude.{MatchBool, IfOk, IfErr};
ghost use Rattle.wkb.specs.Coordinates.{HasOnly, HaveOnly};
ghost use Rattle.wkb.specs.Reads.{values};
ghost use Rattle.wkb_clients.specs.Coordinates.{FindsPoints, IsWantOfRoom};

use std::alloc::{AllocError, Global};
use wkb::coordinates::{Visitor, visit_coordinates};
use wkb::error::WkbResult;
use wkb::geom::levels::{Points, Single};
use wkb::geom::{CoordTrait, Dimensioned, GeometryTrait, GeometryType, LineString};
use wkb::laws::srid_fits;
use wkb::reader::{Dimension, Wkb};
use wkb::writer::{WriteOptions, to_vec};

/// Whether a geometry has this dimension, and each member of a collection in it.
#[cycle(dimension)]
fn has_only(geometry: &Wkb, dimension: Dimension) -> bool
    ensures { MatchBool result (HasOnly dimension geometry.now.value)
        (HasOnly dimension geometry.now.value → ⊥) }
{
    if geometry.dimension() != dimension {
        return false;
    }
    match geometry.as_type() {
        GeometryType::GeometryCollection(members) => have_only(members, dimension),
        _ => true,
    }
}

/// Whether each of these geometries has this dimension, and each member of a collection in it.
#[cycle(dimension)]
fn have_only(members: &[Wkb], dimension: Dimension) -> bool
    ensures { MatchBool result (HaveOnly dimension (values members.now))
        (HaveOnly dimension (values members.now) → ⊥) }
{
    for member in members {
        if !has_only(member, dimension) {
            return false;
        }
    }
    true
}

/// The words of the coordinates that were visited, one after another.
#[derive(Drop)]
struct Words {
    words: Vec<u64>,
}

impl Visitor for Words {
    ghost use Rattle.std.specs.Prelude.{◌≡◌};
    ghost use Rattle.wkb.specs.Coordinates.{words_of};

    ghost has_visited = { λ w cs. w.words.items ≡ words_of cs };

    fn visit<C: CoordTrait>(&mut self, coord: &C) -> Result<(), AllocError> {
        for n in 0..coord.dim().size() {
            self.words.push(coord.at(n))?;
        }
        Ok(())
    }
}

/// The encoding of the multi point that has a point at each coordinate of the geometry, in their order. An empty point
/// has no coordinate; a coordinate of NaNs keeps its words, and is read as an empty point.
///
/// None if a collection has a member of another dimension. Rejected as the writer rejects that multi point: if there
/// are more than 4294967295 coordinates.
pub fn as_multi_point(
    alloc: Global,
    geometry: &Wkb,
    options: &WriteOptions,
) -> WkbResult<Option<Vec<u8>>>
    ensures ok { IfOk result (FindsPoints options.now geometry.now.value) }
    ensures err { IfErr result (IsWantOfRoom options.now geometry.now.value) }
{
    srid_fits(options.form);
    // `read` of its `buf` says that every coordinate fits.
    geometry.buf();
    if !has_only(geometry, geometry.dimension()) {
        return Ok(None);
    }
    let mut words = Words {
        words: Vec::new(alloc),
    };
    visit_coordinates(&mut words, geometry)?;
    let Some(line) = LineString::new(geometry.dim(), words.words.as_slice()) else {
        unreachable!();
    };
    match to_vec(alloc, &Single::MultiPoint(Points::new(line)), options) {
        Ok(bytes) => Ok(Some(bytes)),
        Err(e) => Err(e),
    }
}
