//! Which encoding the options ask for.

ghost use Rattle.std.specs.Prelude.{◌≡◌};
ghost use Rattle.wkb_abi.specs.Requests.{order_asked, request_of};

use wkb_geom::{Endianness, Form};
use wkb_sink::WriteOptions;

/// The number of big endian in `Options`.
pub const BIG_ENDIAN: u32 = 0;

/// The number of little endian.
pub const LITTLE_ENDIAN: u32 = 1;

/// ISO codes, and no SRID.
pub const ISO: u32 = 0;

/// EWKB with the SRID that the geometry itself has, if it has one.
pub const EWKB_OWN_SRID: u32 = 1;

/// EWKB with the SRID of the options.
pub const EWKB_WITH_SRID: u32 = 2;

/// EWKB without an SRID.
pub const EWKB_WITHOUT_SRID: u32 = 3;

/// The order and the form of an encoding, by their numbers.
#[repr(C)]
#[derive(Clone, Copy)]
pub struct Options {
    pub order: u32,
    pub form: u32,
    /// The SRID of `EWKB_WITH_SRID`.
    pub srid: u32,
}

/// The encoding that is asked for.
#[derive(Clone, Copy)]
pub enum Request {
    /// The encoding under these options.
    Encoding(WriteOptions),
    /// The encoding under EWKB with the geometry's own SRID.
    OwnSrid(Endianness),
}

/// The order of this number.
fn order_of_number(number: u32) -> Option<Endianness>
    ensures { result ≡ order_asked number }
{
    match number {
        BIG_ENDIAN => Some(Endianness::BigEndian),
        LITTLE_ENDIAN => Some(Endianness::LittleEndian),
        _ => None,
    }
}

/// What the options ask for, if their numbers mean something.
pub fn request_of(options: &Options) -> Option<Request>
    ensures { result ≡ request_of options.now }
{
    let endianness = order_of_number(options.order)?;
    let form = match options.form {
        ISO => Form::Iso,
        EWKB_OWN_SRID => return Some(Request::OwnSrid(endianness)),
        EWKB_WITH_SRID => Form::Ewkb {
            srid: Some(options.srid),
        },
        EWKB_WITHOUT_SRID => Form::Ewkb { srid: None },
        _ => return None,
    };
    Some(Request::Encoding(WriteOptions { endianness, form }))
}
