//! A multi line string.

ghost use Rattle.std.specs.Prelude.{◌≡◌, false, refl};
ghost use Rattle.wkb_write.specs.Prelude.{Iso, multi_line_string_meant, line_string, member_list};
ghost use Rattle.wkb_write.specs.Prelude.{IsSizeOf, WritesTo, ring_measure};

use crate::common::*;
use crate::items::{Counted, Items};
use crate::line_string::{LineStringKind, measure_coordinates};
use wkb_geom::MultiLineStringTrait;

/// A multi line string.
pub struct MultiLineStringKind;

#[tactic(auto, using(crate::proofs::Steps::item_laws))]
impl<M: MultiLineStringTrait> Items<M> for MultiLineStringKind {
    ghost geometry = { multi_line_string_meant M.MultiLineStringTrait };

    ghost items = { λ m.
        member_list (ring_measure (M.dimensions m)) (line_string (M.dimensions m)) (M.line_strings m) };

    ghost ITEM_HEADER = { 5 };

    const ITEM_HEADER: u8 = MEMBER_HEADER_SIZE as u8;

    ghost parts = { λ m. record { dimensions = refl; fault = refl; size = refl } };

    ghost lawful = { λ m. M.lawful m };

    fn wkb_type(geom: &M) -> WkbType {
        WkbType::MultiLineString(dimension_to_write(geom.dim()))
    }

    fn count(geom: &M) -> u128 {
        geom.num_line_strings() as u128
    }

    fn measure_item(geom: &M, i: usize) -> Measured {
        measure_coordinates(&geom.line_string(i).unwrap())
    }

    fn put_item<S: Sink>(
        out: &mut Buffered<'_, S>,
        geom: &M,
        i: usize,
        options: &WriteOptions,
    ) -> Put {
        LineStringKind::put(out, &geom.line_string(i).unwrap(), options)
    }
}

/// The size of a MultiLineString in ISO codes.
pub fn multi_line_string_wkb_size<M: MultiLineStringTrait>(geom: &M) -> WkbResult<usize>
    ensures size { IsSizeOf Iso (multi_line_string_meant M.MultiLineStringTrait geom.now) result }
{
    size_as::<M, Counted<MultiLineStringKind>>(geom, Form::Iso)
}

/// Writes a MultiLineString.
pub fn write_multi_line_string<S: Sink, M: MultiLineStringTrait>(
    writer: &mut S,
    geom: &M,
    options: &WriteOptions,
) -> WkbResult<()>
    requires working { S.has_failed writer.old ≡ false }
    ensures { WritesTo S.Sink writer.old writer.new options.now
        (multi_line_string_meant M.MultiLineStringTrait geom.now) result }
{
    write_as::<S, M, Counted<MultiLineStringKind>>(writer, geom, options)
}
