//! Rewrites and compares geometries that are known to be at the start of bytes, piece by piece. No call
//! allocates.
#![tactic(auto)]

mod comparison;
mod copied;
mod encoding;
mod lay;
mod own;

pub use comparison::have_one_value;
pub use copied::Copied;
pub use encoding::{
    encoded_size, lay_encoding, lay_one_piece, lay_pieces, lay_polygon, size_with_own_srid,
};
