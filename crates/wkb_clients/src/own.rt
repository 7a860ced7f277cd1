//! The bytes of a geometry that was read, or of a member of it: no call rejects them, and each returns what it says of
//! the geometry.

ghost use Rattle.std.specs.Prelude.{◌≡◌, IfOk, IfErr, MatchBool};
ghost use Rattle.wkb.specs.Prelude.{IsMemory};
ghost use Rattle.wkb.specs.Checks.{AreBounds};
ghost use Rattle.wkb.specs.Geometries.{geometry_of};
ghost use Rattle.wkb.specs.Writes.{IsEncodingOf, own_options};

use std::alloc::Global;
use wkb::Endianness;
use wkb::canon::{canonical_with_srid, same};
use wkb::check::{Bounds, Refused, Summary, bounds, check};
use wkb::error::WkbResult;
use wkb::reader::{Wkb, read_wkb};

/// The check never rejects the bytes of a geometry.
pub fn check_again(w: &Wkb<'_>) -> Result<Summary, Refused>
    ensures { IfErr result (λ _. ⊥) }
{
    check(w.buf())
}

/// The bounds of a geometry.
pub fn bounds_of(w: &Wkb<'_>) -> Bounds
    ensures { AreBounds result w.now.value }
{
    match bounds(w.buf()) {
        Ok(found) => found,
        Err(_) => unreachable!(),
    }
}

/// The geometry, read again from its own bytes.
pub fn read_anew<'a>(alloc: Global, w: &Wkb<'a>) -> WkbResult<Wkb<'a>>
    ensures same { IfOk result (λ x. x ≡ w.now) }
    ensures err { IfErr result IsMemory }
{
    read_wkb(alloc, w.buf())
}

/// The encoding of a geometry with its own SRID, which nothing but an allocation failure can reject.
pub fn key_anew(alloc: Global, w: &Wkb<'_>, order: Endianness) -> WkbResult<Vec<u8>>
    ensures ok { IsEncodingOf (own_options order w.now) (geometry_of w.now.value) result }
    ensures err { IfErr result IsMemory }
{
    canonical_with_srid(alloc, w.buf(), order)
}

/// Whether two geometries have equal values, by their own bytes.
pub fn are_equal(alloc: Global, w: &Wkb<'_>, v: &Wkb<'_>) -> bool
    ensures { MatchBool result (w.now.value ≡ v.now.value) (w.now.value ≡ v.now.value → ⊥) }
{
    match same(alloc, w.buf(), v.buf()) {
        Ok(equal) => equal,
        Err(_) => unreachable!(),
    }
}
