//! A triangle, which is written as a polygon of one ring that ends as it begins.

ghost use Rattle.std.specs.Prelude.{◌≡◌, false, refl};
ghost use Rattle.wkb_write.specs.Prelude.{Iso, triangle_meant, IsSizeOf, WritesTo};

use crate::common::*;
use crate::fixed::{AtOnce, Fixed};
use wkb_geom::{Dimension, TriangleTrait};
use wkb_sink::block::lay_vertex;

/// A triangle, which is laid as a polygon of one ring that ends as it begins.
pub struct TriangleKind;

#[tactic(auto, using(crate::proofs::Steps::fixed_laws, crate::proofs::Supported::width_laws))]
impl<T: TriangleTrait> Fixed<T> for TriangleKind {
    ghost geometry = { triangle_meant T.TriangleTrait };

    ghost body = { λ t. record { dimensions = refl; fault = refl } };

    ghost lawful = { λ t. T.lawful t };

    #[inline(always)]
    fn size(words: usize) -> usize {
        2 * COUNT_SIZE + 4 * (WORD_SIZE * words)
    }

    fn lay(bytes: &mut [u8], at: usize, geom: &T, dim: Dimension, options: &WriteOptions) -> usize {
        let order = options.endianness;
        let words = dim.width();
        let first = geom.first();
        let at = lay_header(bytes, at, options, WkbType::Polygon(dim));
        let at = lay_count(bytes, at, order, 1);
        let at = lay_count(bytes, at, order, 4);
        let at = lay_vertex(bytes, at, order, &first, words);
        let at = lay_vertex(bytes, at, order, &geom.second(), words);
        let at = lay_vertex(bytes, at, order, &geom.third(), words);
        lay_vertex(bytes, at, order, &first, words)
    }
}

/// The size of a triangle, as a polygon of one ring, in ISO codes.
pub fn triangle_wkb_size<T: TriangleTrait>(geom: &T) -> WkbResult<usize>
    ensures size { IsSizeOf Iso (triangle_meant T.TriangleTrait geom.now) result }
{
    size_as::<T, AtOnce<TriangleKind>>(geom, Form::Iso)
}

/// Writes a triangle, as a polygon of one ring.
pub fn write_triangle<S: Sink, T: TriangleTrait>(
    writer: &mut S,
    geom: &T,
    options: &WriteOptions,
) -> WkbResult<()>
    requires working { S.has_failed writer.old ≡ false }
    ensures { WritesTo S.Sink writer.old writer.new options.now
        (triangle_meant T.TriangleTrait geom.now) result }
{
    write_as::<S, T, AtOnce<TriangleKind>>(writer, geom, options)
}
