//! Geometries over levels, as GeoArrow has them: the words of all coordinates in one slice, and for each level the
//! ends of its items. A row has singles, a single has rings, a ring has coordinates. They allocate nothing.
//!
//! Ends are checked where a type is made, and never again. Each item of a level begins where the one before it ends.
#![tactic(auto)]

mod ends;
mod levels;
mod points;
mod polygons;
mod rings;
mod row;
mod rows;
mod single;
mod write;

pub use ends::Ends;
pub use levels::{Levels, Place};
pub use points::Points;
pub use polygons::Polygons;
pub use rings::Rings;
pub use row::{Kind, Row};
pub use rows::Rows;
pub use single::Single;
pub use write::Written;
