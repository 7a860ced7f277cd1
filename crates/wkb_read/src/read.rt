//! The reader: a geometry at the start of some bytes, as a view that borrows them.

ghost use Rattle.std.specs.Prelude.{IfErr, IfOk, IfSome};
ghost use Rattle.wkb_geom.specs.declared.code.WkbType.TheVariants as kinds;
ghost use Rattle.wkb_read.specs.Prelude.{max_nesting, geometry_at, multi_polygon_at, HasHead, CanCount, IsCause};
ghost use Rattle.wkb_read.specs.Memory.{NeedsNone, ReadsWithoutMemory};
ghost use Rattle.wkb_read.specs.Reads.{Reads, Costs};
ghost use Rattle.wkb_geom.specs.Reading.{geometry_inside};
ghost use Rattle.wkb_read.specs.Stack.{BeginsAs, ReadsAs};
ghost use Rattle.wkb_view.specs.Outcome.{TakesAtLeast, RefusesWithoutSlots};
ghost use Rattle.wkb_view.specs.Reads.{ReadsMultiPolygon};

use crate::geometry::{View, Wkb};
use crate::read::claims::Claims;
use crate::read::stack::{Begun, begin_collection, read_collection};
use std::alloc::Global;
use wkb_geom::code::WkbType;
use wkb_geom::header::MIN_MEMBER_SIZE;
use wkb_geom::{Head, Layout, MAX_NESTING, ReadError, WkbResult};
use wkb_view::counts::Counts;
use wkb_view::line_string::LineString;
use wkb_view::multi_line_string::MultiLineString;
use wkb_view::multi_point::MultiPoint;
use wkb_view::multi_polygon::MultiPolygon;
use wkb_view::point::Point;
use wkb_view::polygon::Polygon;

mod claims;
pub(crate) mod stack;

/// The most collections that may be nested in one another; the 129th is rejected.
pub const MAX_WKB_NESTING_DEPTH: usize = MAX_NESTING;

/// What a read has cost when it begins.
const NO_COUNTS: Counts = Counts { turns: 0, slots: 0 };

/// Reads the geometry at the start of the bytes; the bytes after it are not looked at.
///
/// A refusal is the first fault from left to right: `IOError` where a header or a count is cut short, `General` for a
/// byte order, a code or a length, `IncorrectType` for a member of another kind or dimension than its multi geometry
/// takes, `NestingDepthExceeded` for the 129th collection inside one another, `Memory` where an allocation fails.
///
/// ```
/// // The SRID of the geometry at the start of the bytes.
/// let wkb = read_wkb(alloc, bytes)?;
/// let srid = wkb.srid();
/// ```
pub fn read_wkb<'a>(alloc: Global, buf: &'a [u8]) -> WkbResult<Wkb<'a>>
    ensures { Reads buf.now result }
{
    let mut counts = NO_COUNTS;
    read_and_count(alloc, buf, &mut Claims::Any, &mut counts)
}

/// Reads as `read_wkb` does, unless collections and multi polygons claim more members than the bytes can hold: then it
/// returns `None`, and has allocated no list for these. In Rust, `reader::read_wkb` calls it.
pub fn read_wkb_within<'a>(alloc: Global, buf: &'a [u8]) -> Option<WkbResult<Wkb<'a>>>
    ensures { IfSome result (λ read. Reads buf.now read) }
{
    let mut counts = NO_COUNTS;
    let mut claims = Claims::AtMost((buf.len() / MIN_MEMBER_SIZE) as u64);
    let read = read_and_count(alloc, buf, &mut claims, &mut counts);
    match claims {
        Claims::Exceeded => None,
        _ => Some(read),
    }
}

/// Reads as `Wkb::try_new` does, and counts what it cost, whatever the result.
pub fn read_wkb_counted<'a>(alloc: Global, buf: &'a [u8]) -> (WkbResult<Wkb<'a>>, Counts)
    ensures reads { Reads buf.now result.0 }
    ensures costs { Costs buf.now result.0 result.1 }
{
    let mut counts = NO_COUNTS;
    let result = read_and_count(alloc, buf, &mut Claims::Any, &mut counts);
    (result, counts)
}

/// Reads as `read_wkb` does, and counts from zero what it costs.
#[tactic(auto, using(wkb_laws::proofs::GeometryAt::reading_is_bounded_lem))]
#[inline(always)]
fn read_and_count<'a>(
    alloc: Global,
    buf: &'a [u8],
    claims: &mut Claims,
    counts: &mut Counts,
) -> WkbResult<Wkb<'a>>
    ensures reads { Reads buf.now result }
    ensures costs { Costs buf.now result counts.new }
{
    *counts = NO_COUNTS;
    match read_geometry(alloc, buf, claims, counts) {
        Ok(whole) => Ok(whole),
        Err(error) => Err(error.into()),
    }
}

/// Reads the geometry at the start of the bytes. Only a collection that has members needs the loop over a stack.
#[inline(always)]
fn read_geometry<'a>(
    alloc: Global,
    buf: &'a [u8],
    claims: &mut Claims,
    counts: &mut Counts,
) -> Result<Wkb<'a>, ReadError>
    requires fits { CanCount counts.old (geometry_at max_nesting buf.now).0 }
    ensures reads { ReadsAs (geometry_at max_nesting buf.now) result counts.old counts.new }
    ensures no_memory { ReadsWithoutMemory buf.now → IfErr result IsCause }
{
    match read_front(alloc, 0, buf, claims, counts) {
        Ok(Begun::Whole(whole, _)) => Ok(whole),
        Ok(Begun::Opened(outermost, members)) => read_collection(
            alloc, outermost, members, claims, counts,
        ),
        Err(error) => Err(error),
    }
}

/// Reads a header and what follows it, inside `depth` open collections: a whole geometry, or the count of a
/// collection that has members.
#[inline(always)]
pub(crate) fn read_front<'a>(
    alloc: Global,
    depth: usize,
    bytes: &'a [u8],
    claims: &mut Claims,
    counts: &mut Counts,
) -> Result<Begun<'a>, ReadError>
    requires fits { CanCount counts.old (geometry_inside depth bytes.now).0 }
    ensures begins { BeginsAs geometry_inside depth bytes.now result counts.old counts.new }
    ensures no_memory { ReadsWithoutMemory bytes.now → NeedsNone result }
{
    // Taken apart here, and not by `?` and `Head::layout`: else rustc packs both into numbers (docs/COST.md).
    let header = match Head::read(bytes) {
        Ok(header) => header,
        Err(cause) => return Err(ReadError::Cause(cause)),
    };
    let layout = Layout {
        order: header.order,
        dimension: header.wkb_type.dimension(),
        has_srid: header.has_srid,
    };
    let (kind, rest) = match header.wkb_type {
        WkbType::Point(_) => {
            let (point, rest) = Point::read(layout, bytes)?;
            (View::Point(point), rest)
        }
        WkbType::LineString(_) => {
            let (line_string, rest) = LineString::read(layout, bytes)?;
            (View::LineString(line_string), rest)
        }
        WkbType::Polygon(_) => {
            let (polygon, rest) = Polygon::read(alloc, layout, bytes, counts)?;
            (View::Polygon(polygon), rest)
        }
        WkbType::MultiPoint(_) => {
            let (multi, rest) = MultiPoint::read(layout, bytes, counts)?;
            (View::MultiPoint(multi), rest)
        }
        WkbType::MultiLineString(_) => {
            let (multi, rest) = MultiLineString::read(alloc, layout, bytes, counts)?;
            (View::MultiLineString(multi), rest)
        }
        WkbType::MultiPolygon(_) => {
            let (multi, rest) = read_multi_polygon(alloc, layout, bytes, claims, counts)?;
            (View::MultiPolygon(multi), rest)
        }
        WkbType::GeometryCollection(_) => return begin_collection(
            alloc, depth, layout, bytes, claims, counts,
        ),
    };
    Ok(Begun::Whole(Wkb { kind }, rest))
}

/// Reads the multi polygon after this header, if it doesn't claim too many members.
#[tactic(auto, using(wkb_view::proofs::Lists::polygons_within))]
#[inline(always)]
fn read_multi_polygon<'a>(
    alloc: Global,
    layout: Layout,
    bytes: &'a [u8],
    claims: &mut Claims,
    counts: &mut Counts,
) -> Result<(MultiPolygon<'a>, &'a [u8]), ReadError>
    requires fits { CanCount counts.old (multi_polygon_at layout bytes.now).0 }
    requires head { HasHead (λ d. kinds.MultiPolygon d) layout bytes.now }
    ensures answer { ReadsMultiPolygon layout bytes.now result counts.old counts.new }
    ensures shorter { IfOk result (TakesAtLeast MIN_MEMBER_SIZE bytes.now) }
    ensures no_memory { RefusesWithoutSlots (multi_polygon_at layout bytes.now) result }
{
    if !claims.take(layout, bytes) {
        return Err(ReadError::Memory);
    }
    MultiPolygon::read(alloc, layout, bytes, counts)
}
