//! What the files of all kinds use.

pub use crate::measure::{Measured, behind_header, supported_dimension, words_size};
pub use crate::writable::{Put, Writable, size_as, write_as};
pub use crate::{Sink, WriteOptions};
pub use wkb_geom::code::WkbType;
pub use wkb_geom::header::MEMBER_HEADER_SIZE;
pub use wkb_geom::words::{COUNT_SIZE, WORD_SIZE};
pub use wkb_geom::{Dimensioned, Form, WkbResult};
pub use wkb_sink::Buffered;
pub use wkb_sink::block::{dimension_to_write, lay_count, lay_header};
pub use wkb_sink::options::length_of_header;
