//! What writers returned, as values to compare.

use std::io;
use wkb::error::{WkbError, WkbResult};

#[derive(Clone, Copy, PartialEq)]
pub enum Answer {
    Written,
    /// An `IOError` of this kind.
    Failed(io::ErrorKind),
    /// Any other error.
    Other,
}

/// What a writer returned.
pub fn writer_answer(written: &WkbResult<()>) -> Answer {
    match written {
        Ok(()) => Answer::Written,
        Err(WkbError::IOError(error)) => Answer::Failed(error.kind()),
        Err(_) => Answer::Other,
    }
}
