//! Equal views return the same, and a clone is equal to its source: so it has the same members and encodings.

ghost use Rattle.std.specs.Prelude.{◌≡◌, option_map, IfOk};

use std::alloc::Global;
use wkb::error::WkbResult;
use wkb::geom::MultiPolygonTrait;
use wkb::reader::{MultiPolygon, Polygon, Wkb};
use wkb::writer::{WriteOptions, to_vec};

/// The polygons of one index in two equal multi polygons.
pub fn both_polygons<'m, 'a>(
    source: &'m MultiPolygon<'a>,
    clone: &'m MultiPolygon<'a>,
    i: usize,
) -> (Option<&'m Polygon<'a>>, Option<&'m Polygon<'a>>)
    requires { clone.now ≡ source.now }
    ensures { option_map (λ p. p.now) result.1 ≡ option_map (λ p. p.now) result.0 }
{
    match (source.polygon(i), clone.polygon(i)) {
        (Some(one), Some(other)) => {
            one.buf();
            other.buf();
            (Some(one), Some(other))
        }
        missing => missing,
    }
}

/// The encodings of a geometry that was read and of its clone: the same bytes.
pub fn with_clone(
    alloc: Global,
    geometry: &Wkb,
    options: &WriteOptions,
) -> WkbResult<(Vec<u8>, Vec<u8>)>
    ensures { IfOk result (λ written. written.1.items ≡ written.0.items) }
{
    let clone = geometry.clone()?;
    let first = to_vec(alloc, geometry, options)?;
    let second = to_vec(alloc, &clone, options)?;
    Ok((first, second))
}
