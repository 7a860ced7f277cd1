//! Facts about a parameter, as the lemmas of `Rattle.wkb.specs.Known` require them.

ghost use Rattle.wkb.specs.Prelude.{AreBytes};
ghost use Rattle.wkb.specs.Encodings.{IsForm};

use wkb_geom::Form;

/// The bytes of a slice are numbers below 256, as the lemmas require of their lists.
pub fn are_bytes(_bytes: &[u8])
    ensures { AreBytes _bytes.now }
{}

/// The SRID of a form fits in four bytes, as the lemmas require of the form that is written.
pub fn srid_fits(form: Form)
    ensures { IsForm form }
{
    match form {
        Form::Ewkb { srid: Some(_) } => {}
        Form::Iso | Form::Ewkb { srid: None } => {}
    }
}
