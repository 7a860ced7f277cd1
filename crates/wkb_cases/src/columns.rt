//! The polygons of a column, as `wkb::geom::levels` shows them.

use wkb::error::WkbResult;
use wkb::geom::Dimensions;
use wkb::geom::levels::{Ends, Kind, Levels};
use wkb::writer::WriteOptions;

/// Writes two polygons of these words one after another, and returns how many bytes they take.
pub fn write_polygons(words: &[u64], options: &WriteOptions, out: &mut [u8]) -> WkbResult<usize> {
    // Two polygons: a ring of four coordinates; a ring of five, and a hole of four.
    let levels = Levels {
        words,
        ring_ends: Ends::At {
            start: 0,
            ends: &[4, 9, 13],
        },
        single_ends: Ends::At {
            start: 0,
            ends: &[1, 3],
        },
        row_ends: Ends::Each { from: 0, to: 2 },
    };
    let mut written = 0;
    for row in levels.rows(Kind::Polygon, Dimensions::Xy) {
        if let Some(polygon) = row {
            written += polygon.write(options, &mut out[written..])?;
        }
    }
    Ok(written)
}
