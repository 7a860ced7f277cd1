//! Why a geometry is not read or not written.

pub use wkb_geom::error::{General, Overflow, WkbError, WkbResult};
