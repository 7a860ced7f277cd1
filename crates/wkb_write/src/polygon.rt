//! A polygon: its rings, the exterior first.

ghost use Rattle.std.specs.Prelude.{◌≡◌, ◌<◌, Some, false, length, refl, slice_get};
ghost use Rattle.wkb_write.specs.Prelude.{Iso, polygon_meant, ring_list, IsSizeOf, WritesTo};

use crate::common::*;
use crate::items::{Counted, Items};
use crate::line_string::{measure_coordinates, put_coordinates};
use wkb_geom::{LineStringTrait, PolygonTrait};

/// A polygon.
pub struct PolygonKind;

/// The number of rings.
#[tactic(auto, using(crate::proofs::FirstItem::ring_laws))]
fn ring_count<P: PolygonTrait>(polygon: &P) -> u128
    ensures { result ≡ length (P.rings polygon.now) }
{
    match polygon.exterior() {
        None => 0,
        Some(_) => polygon.num_interiors() as u128 + 1,
    }
}

/// The ring at an index, the exterior first.
#[tactic(auto, using(crate::proofs::FirstItem::ring_laws))]
fn nth_ring<P: PolygonTrait>(polygon: &P, i: usize) -> P::RingType
    requires { i < length (P.rings polygon.now) }
    ensures value { slice_get (P.rings polygon.now) i ≡ Some (P.RingType.coordinates result) }
    ensures dimensions { P.RingType.dimensions result ≡ P.dimensions polygon.now }
{
    if i == 0 {
        polygon.exterior().unwrap()
    } else {
        polygon.interior(i - 1).unwrap()
    }
}

#[tactic(auto, using(crate::proofs::Steps::item_laws), unfolding(wkb_geom::specs::Encodings::coordinates_encoding))]
impl<P: PolygonTrait> Items<P> for PolygonKind {
    ghost geometry = { polygon_meant P.PolygonTrait };

    ghost items = { λ p. ring_list (P.dimensions p) (P.rings p) };

    ghost ITEM_HEADER = { 0 };

    const ITEM_HEADER: u8 = 0;

    ghost parts = { λ p. record { dimensions = refl; fault = refl; size = refl } };

    ghost lawful = { λ p. P.lawful p };

    fn wkb_type(geom: &P) -> WkbType {
        WkbType::Polygon(dimension_to_write(geom.dim()))
    }

    fn count(geom: &P) -> u128 {
        ring_count(geom)
    }

    #[inline(always)]
    fn known_size(geom: &P) -> Option<usize> {
        geom.rings_size()
    }

    fn measure_item(geom: &P, i: usize) -> Measured {
        measure_coordinates(&nth_ring(geom, i))
    }

    fn put_item<S: Sink>(
        out: &mut Buffered<'_, S>,
        geom: &P,
        i: usize,
        options: &WriteOptions,
    ) -> Put {
        let ring = nth_ring(geom, i);
        out.put_count(options.endianness, ring.num_coords() as u32)?;
        put_coordinates(out, &ring, options.endianness)
    }
}

/// The size of a polygon, the exterior first, in ISO codes.
pub fn polygon_wkb_size<P: PolygonTrait>(geom: &P) -> WkbResult<usize>
    ensures size { IsSizeOf Iso (polygon_meant P.PolygonTrait geom.now) result }
{
    size_as::<P, Counted<PolygonKind>>(geom, Form::Iso)
}

/// Writes a polygon, the exterior first.
pub fn write_polygon<S: Sink, P: PolygonTrait>(
    writer: &mut S,
    geom: &P,
    options: &WriteOptions,
) -> WkbResult<()>
    requires working { S.has_failed writer.old ≡ false }
    ensures { WritesTo S.Sink writer.old writer.new options.now
        (polygon_meant P.PolygonTrait geom.now) result }
{
    write_as::<S, P, Counted<PolygonKind>>(writer, geom, options)
}
