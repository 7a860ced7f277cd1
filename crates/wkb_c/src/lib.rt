//! Well-Known Binary for C: the calls that `c/wkb.h` declares.
//!
//! In C a slice is a pointer and a length. No call allocates. A call stands with its helpers in a file of its name;
//! what calls share is in `wkb_abi`.
#![tactic(auto)]

mod bounds;
mod check;
mod collect;
mod column_bounds;
mod column_check;
mod column_coordinates;
mod column_found;
mod column_parts;
mod column_write;
mod from_coordinates;
mod next_part;
mod parts;
mod same;
mod write;
