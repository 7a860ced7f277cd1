//! A point.

ghost use Rattle.std.specs.Prelude.{◌≡◌, false, ℕ, List, Option, refl};
ghost use Rattle.wkb_write.specs.Prelude.{Iso, point_meant, point, IsPoint, IsSizeOf, WritesTo};

use crate::common::*;
use crate::fixed::{AtOnce, Fixed};
use crate::measure::size_of;
use wkb_geom::{Dimension, Dimensions, PointTrait};
use wkb_sink::block::{lay_coordinate, lay_empty};

/// A point, empty or not.
pub struct PointKind;

#[tactic(auto, using(crate::proofs::Steps::fixed_laws, crate::proofs::Supported::width_laws))]
impl<P: PointTrait> Fixed<P> for PointKind {
    ghost geometry = { point_meant P.PointTrait };

    ghost body = { λ p. record { dimensions = refl; fault = refl } };

    ghost lawful = { λ p. P.lawful p };

    #[inline(always)]
    fn size(words: usize) -> usize {
        WORD_SIZE * words
    }

    #[inline(always)]
    fn lay(bytes: &mut [u8], at: usize, geom: &P, dim: Dimension, options: &WriteOptions) -> usize {
        let order = options.endianness;
        let words = dim.width();
        let at = lay_header(bytes, at, options, WkbType::Point(dim));
        match geom.coord() {
            Some(coord) => lay_coordinate(bytes, at, order, &coord, words),
            None => lay_empty(bytes, at, order, words),
        }
    }
}

/// The size of a point of these dimensions in ISO codes, whatever its words are.
///
/// Rejected where the dimensions can't be written.
#[inline]
pub fn point_wkb_size(dim: Dimensions) -> WkbResult<usize>
    ensures size { (c : Option (List ℕ)) → IsPoint dim c → IsSizeOf Iso (point dim c) result }
{
    size_of(
        behind_header(dim, Measured::Bytes(words_size(dim, 1))),
        Form::Iso,
    )
}

/// Writes a point. The words of an empty point are NaNs.
#[inline(always)]
pub fn write_point<S: Sink, P: PointTrait>(
    writer: &mut S,
    geom: &P,
    options: &WriteOptions,
) -> WkbResult<()>
    requires working { S.has_failed writer.old ≡ false }
    ensures { WritesTo S.Sink writer.old writer.new options.now
        (point_meant P.PointTrait geom.now) result }
{
    write_as::<S, P, AtOnce<PointKind>>(writer, geom, options)
}
