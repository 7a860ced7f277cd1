//! A rectangle, which is written as a polygon of one ring, with only x and y.

ghost use Rattle.std.specs.Prelude.{◌≡◌, false, refl};
ghost use Rattle.wkb_write.specs.Prelude.{Iso, rect_meant, IsSizeOf, WritesTo};

use crate::common::*;
use crate::fixed::{AtOnce, Fixed};
use wkb_geom::{CoordTrait, Dimension, RectTrait};
use wkb_sink::block::{CORNER_SIZE, lay_corner};

/// A rectangle, which is laid as a polygon of one ring, with only x and y.
pub struct RectKind;

#[tactic(auto, using(crate::proofs::Steps::fixed_laws))]
impl<R: RectTrait> Fixed<R> for RectKind {
    ghost geometry = { rect_meant R.RectTrait };

    ghost body = { λ r. record { dimensions = refl; fault = refl } };

    ghost lawful = { λ r. R.lawful r };

    #[inline(always)]
    fn size(_words: usize) -> usize {
        2 * COUNT_SIZE + 5 * CORNER_SIZE
    }

    fn lay(
        bytes: &mut [u8],
        at: usize,
        geom: &R,
        _dim: Dimension,
        options: &WriteOptions,
    ) -> usize {
        let order = options.endianness;
        let (x0, y0) = geom.min().x_y();
        let (x1, y1) = geom.max().x_y();
        let at = lay_header(bytes, at, options, WkbType::Polygon(Dimension::Xy));
        let at = lay_count(bytes, at, order, 1);
        let at = lay_count(bytes, at, order, 5);
        let at = lay_corner(bytes, at, order, x0, y0);
        let at = lay_corner(bytes, at, order, x0, y1);
        let at = lay_corner(bytes, at, order, x1, y1);
        let at = lay_corner(bytes, at, order, x1, y0);
        lay_corner(bytes, at, order, x0, y0)
    }
}

/// The size of a rectangle, as a polygon of one ring, with only x and y, in ISO codes.
pub fn rect_wkb_size<R: RectTrait>(geom: &R) -> WkbResult<usize>
    ensures size { IsSizeOf Iso (rect_meant R.RectTrait geom.now) result }
{
    size_as::<R, AtOnce<RectKind>>(geom, Form::Iso)
}

/// Writes a rectangle, as a polygon of one ring, with only x and y.
pub fn write_rect<S: Sink, R: RectTrait>(
    writer: &mut S,
    geom: &R,
    options: &WriteOptions,
) -> WkbResult<()>
    requires working { S.has_failed writer.old ≡ false }
    ensures { WritesTo S.Sink writer.old writer.new options.now
        (rect_meant R.RectTrait geom.now) result }
{
    write_as::<S, R, AtOnce<RectKind>>(writer, geom, options)
}
