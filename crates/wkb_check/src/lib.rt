//! A check of Well-Known Binary that allocates nothing. It accepts what the reader accepts, and reports why and where
//! the reader rejects, by one walk over the bytes with a fixed stack of counts.
//!
//! Of bytes that it accepts, the pieces: a geometry, its rings and its members at every level, one after another.
#![tactic(auto)]

mod answer;
mod begun;
mod head;
mod nested;
mod pieces;
mod skip;
mod walk;

pub use answer::{Refused, Summary, check, check_headed, check_member, check_plain};
pub use begun::NextPiece;
pub use head::size_of_srid;
pub use pieces::{Piece, Pieces, RING};
