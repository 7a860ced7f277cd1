//! A geometry that is read and written with an SRID.

use std::alloc::Global;
use wkb::Endianness;
use wkb::error::WkbResult;
use wkb::reader::read_wkb;
use wkb::writer::{Form, WriteOptions, to_vec};

/// The geometry of these bytes as big endian EWKB with this SRID.
pub fn as_ewkb(alloc: Global, bytes: &[u8], srid: u32) -> WkbResult<Vec<u8>> {
    let wkb = read_wkb(alloc, bytes)?;
    let options = WriteOptions {
        endianness: Endianness::BigEndian,
        form: Form::Ewkb { srid: Some(srid) },
    };
    to_vec(alloc, &wkb, &options)
}
