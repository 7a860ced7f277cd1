//! A line string. A ring is measured and put as its coordinates are.

ghost use Rattle.std.specs.Prelude.{◌≡◌, ◌≤◌, ◌<◌, ◌*◌, ◌-◌, ◌^◌, None, false, length};
ghost use Rattle.wkb_write.specs.Prelude.{Iso, line_string_meant, uncounted_encoding, dimensions_fault};
ghost use Rattle.wkb_write.specs.Prelude.{Lays, IsSizeOf, WritesTo, IsMeasureOf, ring_measure};
ghost use Rattle.wkb_sink.specs.declared.block.TheConstants.{MAX_COORDINATE_SIZE};

use crate::common::*;
use crate::measure::count_to_write;
use wkb_geom::{Endianness, LineStringTrait};
use wkb_sink::block::lay_coordinates;

/// Measures the coordinates of a line string or a ring, with their count.
pub fn measure_coordinates<L: LineStringTrait>(line: &L) -> Measured
    ensures { IsMeasureOf (ring_measure (L.dimensions line.now) (L.coordinates line.now)) result }
{
    match count_to_write(line.num_coords() as u128) {
        Some(count) => Measured::Bytes(words_size(line.dim(), count).saturating_add(COUNT_SIZE)),
        None => Measured::Count,
    }
}

/// The index up to which the coordinates from another one on fit the room. It divides only if not all of them fit.
#[inline]
fn end_of_run(from: usize, count: usize, size: usize, room: usize) -> usize
    requires order { from < count }
    requires count { count < 2 ^ 32 }
    requires some { 0 < size }
    requires one { size ≤ room }
    requires most { size ≤ MAX_COORDINATE_SIZE }
    ensures order { from < result }
    ensures within { result ≤ count }
    ensures room { size * (result - from) ≤ room }
{
    if size * (count - from) <= room {
        count
    } else {
        from + room / size
    }
}

/// Puts the coordinates of a line string or a ring.
#[tactic(auto, using(crate::proofs::Steps::run_laws))]
pub fn put_coordinates<S: Sink, L: LineStringTrait>(
    out: &mut Buffered<'_, S>,
    line: &L,
    order: Endianness,
) -> Put
    requires supported { dimensions_fault (L.dimensions line.now) ≡ None }
    requires count { length (L.coordinates line.now) < 2 ^ 32 }
    requires working { S.has_failed out.old.sink.now ≡ false }
    ensures { Lays S.Sink out.old out.new
        (uncounted_encoding order (L.coordinates line.now)) result }
{
    let count = line.num_coords();
    let size = WORD_SIZE * line.dim().size();
    if let Some(bytes) = line.coords_as_written(order) {
        return out.put_bytes(bytes);
    }
    let mut done = 0;
    while done < count {
        out.make_room(size)?;
        let next = end_of_run(done, count, size, out.room());
        out.len = lay_coordinates(out.bytes, out.len, line, done, next, order);
        done = next;
    }
    Ok(())
}

/// A line string.
pub struct LineStringKind;

#[tactic(auto, using(crate::proofs::Steps::line_laws), unfolding(wkb_geom::specs::Encodings::line_string_encoding))]
impl<L: LineStringTrait> Writable<L> for LineStringKind {
    ghost geometry = { line_string_meant L.LineStringTrait };

    ghost lawful = { λ l. L.lawful l };

    #[inline(always)]
    fn measure(geom: &L) -> Measured {
        behind_header(geom.dim(), measure_coordinates(geom))
    }

    fn put<S: Sink>(out: &mut Buffered<'_, S>, geom: &L, options: &WriteOptions) -> Put {
        let wkb_type = WkbType::LineString(dimension_to_write(geom.dim()));
        out.put_head(options, wkb_type, geom.num_coords() as u32)?;
        put_coordinates(out, geom, options.endianness)
    }
}

/// The size of a line string in ISO codes.
pub fn line_string_wkb_size<L: LineStringTrait>(geom: &L) -> WkbResult<usize>
    ensures size { IsSizeOf Iso (line_string_meant L.LineStringTrait geom.now) result }
{
    size_as::<L, LineStringKind>(geom, Form::Iso)
}

/// Writes a line string.
pub fn write_line_string<S: Sink, L: LineStringTrait>(
    writer: &mut S,
    geom: &L,
    options: &WriteOptions,
) -> WkbResult<()>
    requires working { S.has_failed writer.old ≡ false }
    ensures { WritesTo S.Sink writer.old writer.new options.now
        (line_string_meant L.LineStringTrait geom.now) result }
{
    write_as::<S, L, LineStringKind>(writer, geom, options)
}
