//! Geometries over columns of coordinates, as GeoArrow has them: the ordinates of all coordinates in one slice, and
//! for each level the ends of its items. A row has singles, a single has rings, a ring has coordinates. They allocate
//! nothing.
//!
//! A column's rows are read one after another. A row that makes no geometry of the column's kind is None:
//!
//! ```
//! // Two polygons: a ring of four coordinates; a ring of five, and a hole of four.
//! let levels = Levels {
//!     words,
//!     ring_ends: Ends::At {
//!         start: 0,
//!         ends: &[4, 9, 13],
//!     },
//!     single_ends: Ends::At {
//!         start: 0,
//!         ends: &[1, 3],
//!     },
//!     row_ends: Ends::Each { from: 0, to: 2 },
//! };
//! let mut written = 0;
//! for row in levels.rows(Kind::Polygon, Dimensions::Xy) {
//!     if let Some(polygon) = row {
//!         written += polygon.write(options, &mut out[written..])?;
//!     }
//! }
//! ```

pub use wkb_levels::{
    Ends, Kind, Levels, Place, Points, Polygons, Rings, Row, Rows, Single, Written,
};
