//! The bounds of a geometry: on each axis the least and the greatest of its numbers, over the pieces that `wkb_check`
//! finds. It allocates nothing.
#![tactic(auto)]

mod axes;
mod coordinate;
mod extremes;
mod range;
mod run;
mod scan;
mod widen;

pub use range::{Bounds, Range};
pub use scan::{any_bounds_into, bounds, plain_bounds_into};
