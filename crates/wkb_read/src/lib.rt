//! Geometries of any kind, and the reader of Well-Known Binary.
#![tactic(auto)]

mod contents;
pub mod geometry;
pub mod geometry_type;
pub mod read;
mod srids;
