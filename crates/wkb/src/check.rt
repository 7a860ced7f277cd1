//! The check that allocates nothing: whether a geometry is at the start of some bytes, what it is, and where it ends.
//! The bounds of its coordinates, without allocation too.
//!
//! ```
//! // Untrusted bytes: nothing is allocated for what is rejected.
//! let read = match check(bytes) {
//!     Ok(found) => Some(read_wkb(alloc, &bytes[..found.bytes])),
//!     Err(_refused) => None,
//! };
//! ```
//!
//! Reading rejected bytes directly is right as well, but may first allocate up to 15 list entries for each byte.

pub use wkb_bounds::{Bounds, Range, bounds};
pub use wkb_check::{Refused, Summary, check};
pub use wkb_geom::Cause;
pub use wkb_geom::code::WkbType;
