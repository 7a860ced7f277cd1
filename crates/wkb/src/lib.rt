//! Well-Known Binary: the reader, the writer, and the canonical form of what was read.
//!
//! ```
//! // The encoding of the same geometry with its numbers in big endian, in ISO codes.
//! let wkb = read_wkb(alloc, bytes)?;
//! let options = WriteOptions {
//!     endianness: Endianness::BigEndian,
//!     form: Form::Iso,
//! };
//! let encoding = to_vec(alloc, &wkb, &options)?;
//! ```
//!
//! All names but those of `canon`, `geom::ordinate`, `geom::Geometry`, `geom::GeometryCollection`, `laws::are_bytes`
//! and `laws::srid_fits` are re-exports of the crates below. A recursive enum like
//! `geom::Geometry` is declared here, because a crate that lists `wkb` alone can name it in contracts only so.
#![tactic(auto)]

pub mod canon;
pub mod check;
pub mod coordinates;
pub mod error;
pub mod geom;
pub mod laws;
pub mod reader;
pub mod writer;

pub use wkb_geom::Endianness;
