//! A line, which is written as a line string of its two ends.

ghost use Rattle.std.specs.Prelude.{◌≡◌, false, refl};
ghost use Rattle.wkb_write.specs.Prelude.{Iso, line_meant, IsSizeOf, WritesTo};

use crate::common::*;
use crate::fixed::{AtOnce, Fixed};
use wkb_geom::{Dimension, LineTrait};
use wkb_sink::block::lay_vertex;

/// A line, which is laid as a line string of its two ends.
pub struct LineKind;

#[tactic(auto, using(crate::proofs::Steps::fixed_laws, crate::proofs::Supported::width_laws))]
impl<L: LineTrait> Fixed<L> for LineKind {
    ghost geometry = { line_meant L.LineTrait };

    ghost body = { λ l. record { dimensions = refl; fault = refl } };

    ghost lawful = { λ l. L.lawful l };

    #[inline(always)]
    fn size(words: usize) -> usize {
        COUNT_SIZE + 2 * (WORD_SIZE * words)
    }

    fn lay(bytes: &mut [u8], at: usize, geom: &L, dim: Dimension, options: &WriteOptions) -> usize {
        let order = options.endianness;
        let words = dim.width();
        let at = lay_header(bytes, at, options, WkbType::LineString(dim));
        let at = lay_count(bytes, at, order, 2);
        let at = lay_vertex(bytes, at, order, &geom.start(), words);
        lay_vertex(bytes, at, order, &geom.end(), words)
    }
}

/// The size of a line, as a line string of two coordinates, in ISO codes.
pub fn line_wkb_size<L: LineTrait>(geom: &L) -> WkbResult<usize>
    ensures size { IsSizeOf Iso (line_meant L.LineTrait geom.now) result }
{
    size_as::<L, AtOnce<LineKind>>(geom, Form::Iso)
}

/// Writes a line, as a line string of two coordinates.
pub fn write_line<S: Sink, L: LineTrait>(
    writer: &mut S,
    geom: &L,
    options: &WriteOptions,
) -> WkbResult<()>
    requires working { S.has_failed writer.old ≡ false }
    ensures { WritesTo S.Sink writer.old writer.new options.now
        (line_meant L.LineTrait geom.now) result }
{
    write_as::<S, L, AtOnce<LineKind>>(writer, geom, options)
}
