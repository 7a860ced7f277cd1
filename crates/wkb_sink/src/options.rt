//! What a caller chooses of an encoding: the byte order, and the form of the codes.

ghost use Rattle.std.specs.Prelude.{◌≡◌, ◌≤◌};
ghost use Rattle.wkb_geom.specs.declared.header.TheConstants.{MAX_HEADER_SIZE};
ghost use Rattle.wkb_geom.specs.Encodings.{IsForm};
ghost use Rattle.wkb_geom.specs.declared.common.Endianness.TheVariants.{LittleEndian};
ghost use Rattle.wkb_geom.specs.declared.common.Form.TheVariants.{Iso};
ghost use Rattle.wkb_sink.specs.Options.{header_size, inner_options};

use wkb_geom::header::{MAX_HEADER_SIZE, MEMBER_HEADER_SIZE};
use wkb_geom::{Endianness, Form};

/// The byte order and the form of what is written. By default it is little endian, with ISO codes.
#[derive(Debug, Clone, Copy)]
pub struct WriteOptions {
    /// The byte order.
    pub endianness: Endianness,
    /// The form of the codes.
    pub form: Form,
}

impl Default for WriteOptions {
    ghost is_default = { λ o. (o.endianness ≡ LittleEndian) × (o.form ≡ Iso) };

    fn default() -> WriteOptions {
        WriteOptions {
            endianness: Endianness::default(),
            form: Form::default(),
        }
    }
}

impl WriteOptions {
    /// The options of a geometry inside another one, which is written without an SRID.
    #[inline]
    pub fn inner(&self) -> WriteOptions
        ensures { result ≡ inner_options self.now }
    {
        WriteOptions {
            endianness: self.endianness,
            form: self.form.inner(),
        }
    }
}

/// The size of the header that is written.
#[inline]
pub fn length_of_header(form: Form) -> usize
    ensures size { result ≡ header_size form }
    ensures most { result ≤ MAX_HEADER_SIZE }
    ensures fits { IsForm form }
{
    match form {
        Form::Ewkb { srid: Some(_) } => MAX_HEADER_SIZE,
        Form::Iso | Form::Ewkb { srid: None } => MEMBER_HEADER_SIZE,
    }
}
