//! The kind of a geometry that was read, by the view that `as_type` returns: docs/PROVING_ABOVE.md shows its proof.

ghost use Rattle.std.specs.Prelude.{◌≡◌, MatchBool};
ghost use Rattle.wkb.specs.Values.{kind};

use wkb::geom::{GeometryTrait, GeometryType};
use wkb::reader::Wkb;

/// Whether a geometry is a line string, which has the number 2.
pub fn is_line_string(geometry: &Wkb) -> bool
    ensures { MatchBool result (kind geometry.now.value ≡ 2) (kind geometry.now.value ≡ 2 → ⊥) }
{
    match geometry.as_type() {
        GeometryType::LineString(_) => true,
        _ => false,
    }
}
