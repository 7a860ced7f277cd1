//! The levels of a column.

ghost use Rattle.std.specs.Prelude.{◌≡◌, ◌<◌, ◌+◌, ◌↔◌, length, IfSome, IsSome, IsTrue};
ghost use Rattle.wkb_geom.specs.Found.{HasDimensions};
ghost use Rattle.wkb_geom.specs.declared.common.Dimensions.{Dimensions};
ghost use Rattle.wkb_levels.specs.Columns.{AreItems};
ghost use Rattle.wkb_levels.specs.EndLists.{ends_of};
ghost use Rattle.wkb_levels.specs.PolygonLists.{polygons_dimensions, polygons_polygons};

use crate::ends::Ends;
use crate::polygons::Polygons;
use crate::rings::Rings;
use wkb_geom::Dimensions;

/// The levels of a column: the words of all coordinates, and where all rings, singles and rows end. A ring's end is
/// counted in coordinates, a single's in rings, a row's in singles. A row is asked for by itself; in Rust, `Levels`
/// of the module `columns` encodes all rows.
#[derive(Debug, Clone, Copy)]
pub struct Levels<'w> {
    pub words: &'w [u64],
    pub ring_ends: Ends<'w>,
    pub single_ends: Ends<'w>,
    pub row_ends: Ends<'w>,
}

/// How far rows reach: behind how many singles, rings and coordinates.
#[derive(Debug, Clone, Copy)]
pub struct Place {
    pub singles: u64,
    pub rings: u64,
    pub coordinates: u64,
}

#[tactic(auto, using(crate::proofs::Floors::floor_laws))]
impl Place {
    ghost use Rattle.wkb_levels.specs.Columns.{IsFloor};

    /// The place in front of all rows.
    pub fn front() -> Place
        ensures { (l : Levels) (d : Dimensions) → IsFloor l d 0 result }
    {
        Place {
            singles: 0,
            rings: 0,
            coordinates: 0,
        }
    }
}

/// Whether items from one number up to another don't fall, nor pass so many.
fn are_items(from: u64, to: u64, count: usize) -> bool
    ensures { IsTrue result ↔ AreItems count from to }
{
    from <= to && to <= count as u64
}

#[tactic(auto, using(crate::proofs::Floors::floor_laws))]
impl<'w> Levels<'w> {
    ghost use Rattle.wkb_levels.specs.Columns.{AreRowLevels, IsClear, IsFloor, singles_of};

    /// Advances `floor` past row i without building the row, as for a null row. Says whether the row is clear: it spans
    /// items of each level, and begins at none before the floor. It looks at six ends, however long the row is.
    pub fn pass(&self, dim: Dimensions, i: usize, floor: &mut Place) -> bool
        requires index { i < length (ends_of self.now.row_ends) }
        requires floor { IsFloor self.now dim i floor.old }
        ensures clear { IsTrue result ↔ IsClear self.now dim i }
        ensures floor { IsFloor self.now dim (i + 1) floor.new }
    {
        let single = self.row_ends.begin(i);
        let singles_end = self.row_ends.end(i);
        if !are_items(single, singles_end, self.single_ends.len()) {
            return false;
        }
        let ring = self.single_ends.begin(single as usize);
        let rings_end = self.single_ends.begin(singles_end as usize);
        let singles_clear = floor.singles <= single;
        floor.singles = floor.singles.max(singles_end);
        if !are_items(ring, rings_end, self.ring_ends.len()) {
            return false;
        }
        let coordinate = self.ring_ends.begin(ring as usize);
        let coordinates_end = self.ring_ends.begin(rings_end as usize);
        let rings_clear = floor.rings <= ring;
        floor.rings = floor.rings.max(rings_end);
        let width = dim.size();
        if width == 0 || !are_items(coordinate, coordinates_end, self.words.len() / width) {
            return false;
        }
        let coordinates_clear = floor.coordinates <= coordinate;
        floor.coordinates = floor.coordinates.max(coordinates_end);
        singles_clear && rings_clear && coordinates_clear
    }

    /// The singles of row i, as polygons are. None if its levels fall, or pass the next level's end, or the
    /// dimension has no words. It looks at the end of each single and ring that the row spans. Call it only
    /// for rows that share no single and no ring with an earlier row, so that each end is read once.
    pub(crate) fn singles(&self, dim: Dimensions, i: usize) -> Option<Polygons<'w>>
        requires index { i < length (ends_of self.now.row_ends) }
        requires clear { IsClear self.now dim i }
        ensures some { IsSome result ↔ AreRowLevels self.now dim i }
        ensures dimensions { HasDimensions polygons_dimensions result dim }
        ensures polygons { IfSome result (λ p. polygons_polygons p ≡ singles_of self.now dim i) }
    {
        let singles = self
            .single_ends
            .range(self.row_ends.begin(i), self.row_ends.end(i))?;
        let spans = self.ring_ends.range(singles.start(), singles.last())?;
        let rings = Rings::new(dim, self.words, spans)?;
        Polygons::new(rings, singles)
    }
}
