//! Levels that are read, and what their rows are written as.

use wkb_geom::Dimensions;
use wkb_levels::Kind;
use wkb_sink::WriteOptions;

/// Levels as GeoArrow has them, and which rows are null. A level without ends has one item of the next level each.
#[repr(C)]
#[derive(Drop)]
pub struct LevelColumn<'a> {
    /// One coordinate after another.
    pub words: &'a [u64],
    /// For each ring, its end in coordinates.
    pub ring_ends: &'a [u64],
    /// How many rings there are, where they have no ends.
    pub rings: u64,
    /// For each single, its end in rings.
    pub single_ends: &'a [u64],
    /// How many singles there are, where they have no ends.
    pub singles: u64,
    /// For each row, its end in singles.
    pub row_ends: &'a [u64],
    /// How many rows there are, where they have no ends.
    pub rows: u64,
    /// The validity bitmap, least significant bit first: 0 for a null row. A row without a bit isn't null.
    pub validity: &'a [u8],
    /// The bit of the first row.
    pub validity_offset: usize,
}

/// What each row is written as.
#[derive(Clone, Copy)]
pub struct LevelTarget {
    pub kind: Kind,
    pub dim: Dimensions,
    pub options: WriteOptions,
}
