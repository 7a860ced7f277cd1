//! A geometry of any kind: its sizes, its writer, and its encoding in a vector or in a slice.

ghost use Rattle.std.specs.Prelude.{◌≡◌, false};
ghost use Rattle.wkb_write.specs.Prelude.{Iso, IsSizeOf, WritesTo, WritesToSlice, WritesToVec};

use crate::common::*;
use crate::fixed::AtOnce;
use crate::items::Counted;
use crate::line::LineKind;
use crate::line_string::{LineStringKind, write_line_string};
use crate::multi_line_string::MultiLineStringKind;
use crate::multi_point::MultiPointKind;
use crate::multi_polygon::MultiPolygonKind;
use crate::nested::{Nested, measure_geometry, put_members};
use crate::point::{PointKind, write_point};
use crate::polygon::{PolygonKind, write_polygon};
use crate::rect::RectKind;
use crate::slice::{encoding_to_slice, slice_as};
use crate::triangle::TriangleKind;
use crate::writable::{vec_as, vec_of_encoding, write_encoding};
use std::alloc::Global;
use wkb_geom::{GeometryTrait, GeometryType};

/// A geometry of any kind.
pub struct GeometryKind;

impl<G: GeometryTrait> Nested<G> for GeometryKind {
    ghost geometry = { λ g. G.geometry g };

    ghost lawful = { λ g. G.lawful g };

    #[inline(always)]
    fn members_of(geom: &G) -> Option<&[G]> {
        match geom.as_type() {
            GeometryType::GeometryCollection(members) => Some(members),
            _ => None,
        }
    }

    #[inline(always)]
    fn measure_leaf(geom: &G) -> Measured {
        match geom.as_type() {
            GeometryType::Point(p) => AtOnce::<PointKind>::measure(p),
            GeometryType::LineString(l) => LineStringKind::measure(l),
            GeometryType::Polygon(p) => Counted::<PolygonKind>::measure(p),
            GeometryType::MultiPoint(m) => Counted::<MultiPointKind>::measure(m),
            GeometryType::MultiLineString(m) => Counted::<MultiLineStringKind>::measure(m),
            GeometryType::MultiPolygon(m) => Counted::<MultiPolygonKind>::measure(m),
            GeometryType::Line(l) => AtOnce::<LineKind>::measure(l),
            GeometryType::Rect(r) => AtOnce::<RectKind>::measure(r),
            GeometryType::Triangle(t) => AtOnce::<TriangleKind>::measure(t),
            GeometryType::GeometryCollection(_) => unreachable!(),
        }
    }

    #[inline(always)]
    fn put_leaf<S: Sink>(out: &mut Buffered<'_, S>, geom: &G, options: &WriteOptions) -> Put {
        match geom.as_type() {
            GeometryType::Point(p) => AtOnce::<PointKind>::put(out, p, options),
            GeometryType::LineString(l) => LineStringKind::put(out, l, options),
            GeometryType::Polygon(p) => Counted::<PolygonKind>::put(out, p, options),
            GeometryType::MultiPoint(m) => Counted::<MultiPointKind>::put(out, m, options),
            GeometryType::MultiLineString(m) => Counted::<MultiLineStringKind>::put(
                out, m, options,
            ),
            GeometryType::MultiPolygon(m) => Counted::<MultiPolygonKind>::put(out, m, options),
            GeometryType::Rect(r) => AtOnce::<RectKind>::put(out, r, options),
            GeometryType::Triangle(t) => AtOnce::<TriangleKind>::put(out, t, options),
            GeometryType::Line(l) => AtOnce::<LineKind>::put(out, l, options),
            GeometryType::GeometryCollection(_) => unreachable!(),
        }
    }
}

#[tactic(auto, using(crate::proofs::Collections::collection_laws, crate::proofs::Whole::known_laws))]
impl<G: GeometryTrait> Writable<G> for GeometryKind {
    ghost geometry = { λ g. G.geometry g };

    ghost lawful = { λ g. G.lawful g };

    #[inline(always)]
    fn measure(geom: &G) -> Measured {
        match geom.byte_size() {
            Some(size) => Measured::Bytes(size - MEMBER_HEADER_SIZE),
            None => measure_geometry::<G, GeometryKind>(geom),
        }
    }

    fn put<S: Sink>(out: &mut Buffered<'_, S>, geom: &G, options: &WriteOptions) -> Put {
        match GeometryKind::members_of(geom) {
            Some(members) => {
                put_members::<S, G, GeometryKind>(out, geom.dim(), members, options)
            }
            None => GeometryKind::put_leaf(out, geom, options),
        }
    }
}

/// The size of a geometry in ISO codes, in bytes.
///
/// Rejected by the first of these in preorder: dimensions that can't be written
/// (`General(UnsupportedDimensions)`), a count that four bytes don't hold (`OverflowError(Count)`).
/// Where there is none, a size that `usize` doesn't hold is rejected (`OverflowError(Size)`).
#[inline]
pub fn geometry_wkb_size<G: GeometryTrait>(geom: &G) -> WkbResult<usize>
    ensures size { IsSizeOf Iso (G.geometry geom.now) result }
{
    size_as::<G, GeometryKind>(geom, Form::Iso)
}

/// The size of a geometry under the options: four bytes more where they have an SRID.
///
/// Rejected as `geometry_wkb_size` rejects it, and where the SRID's bytes make it pass `usize`.
#[inline]
pub fn geometry_wkb_size_with<G: GeometryTrait>(
    geom: &G,
    options: &WriteOptions,
) -> WkbResult<usize>
    ensures size { IsSizeOf options.now.form (G.geometry geom.now) result }
{
    size_as::<G, GeometryKind>(geom, options.form)
}

/// Writes a geometry. The whole of it is tested before a byte is put.
///
/// ```rust
/// let form = Form::Ewkb { srid: Some(4326) };
/// let endianness = Endianness::BigEndian;
/// let mut sink = VecSink::new(alloc);
/// write_geometry(&mut sink, &geometry, &WriteOptions { endianness, form })?;
/// let encoding = sink.into_vec();
/// ```
///
/// Rejected as `geometry_wkb_size_with` rejects it under the same options, with the sink untouched.
/// `IOError` where the sink fails: then a strict prefix of the encoding was put. It is the sink's own error, or of the
/// kind `WriteZero` where the sink took nothing.
#[inline(always)]
#[tactic(auto, using(crate::proofs::Writing::writes_same))]
pub fn write_geometry<S: Sink, G: GeometryTrait>(
    writer: &mut S,
    geom: &G,
    options: &WriteOptions,
) -> WkbResult<()>
    requires working { S.has_failed writer.old ≡ false }
    ensures { WritesTo S.Sink writer.old writer.new options.now (G.geometry geom.now) result }
{
    if let Some(encoding) = geom.as_written(options.endianness, options.form) {
        return write_encoding(writer, encoding, options);
    }
    match geom.as_type() {
        // Most geometries are of these kinds, for which their own writers are called at once.
        GeometryType::Point(p) => write_point(writer, p, options),
        GeometryType::LineString(l) => write_line_string(writer, l, options),
        GeometryType::Polygon(p) => write_polygon(writer, p, options),
        _ => write_as::<S, G, GeometryKind>(writer, geom, options),
    }
}

/// The encoding of a geometry under the options, in a vector of its size.
///
/// ```rust
/// let encoding = to_vec(alloc, &geometry, &WriteOptions::default())?;
/// assert_eq!(rt; encoding.len(), geometry_wkb_size(&geometry)?);
/// ```
///
/// Rejected as `geometry_wkb_size_with` rejects it under the same options. `Memory` is possible only for a geometry
/// that passes these checks.
#[inline(always)]
#[tactic(auto, using(crate::proofs::Writing::encoding_fits))]
pub fn to_vec<G: GeometryTrait>(
    alloc: Global,
    geom: &G,
    options: &WriteOptions,
) -> WkbResult<Vec<u8>>
    ensures { WritesToVec options.now (G.geometry geom.now) result }
{
    if let Some(encoding) = geom.as_written(options.endianness, options.form) {
        return vec_of_encoding(alloc, encoding);
    }
    match geom.as_type() {
        // A point by itself needs no call.
        GeometryType::Point(p) => vec_as::<G::PointType, AtOnce<PointKind>>(alloc, p, options),
        _ => vec_as::<G, GeometryKind>(alloc, geom, options),
    }
}

/// Writes a geometry to the front of a slice, and returns the size of the encoding. The bytes after it stay as they
/// were.
///
/// ```rust
/// let mut bytes = [0; 100];
/// let size = write_to_slice(&geometry, &WriteOptions::default(), &mut bytes)?;
/// let encoding = &bytes[..size];
/// ```
///
/// Rejected as `geometry_wkb_size_with` rejects it under the same options. `IOError` of the kind `WriteZero` where the
/// slice is shorter than the encoding. In both cases the slice is untouched.
#[inline(always)]
#[tactic(auto, using(crate::proofs::Writing::encoding_fits, crate::proofs::Writing::encoding_outgrows))]
pub fn write_to_slice<G: GeometryTrait>(
    geom: &G,
    options: &WriteOptions,
    out: &mut [u8],
) -> WkbResult<usize>
    ensures { WritesToSlice options.now (G.geometry geom.now) out.old out.new result }
{
    if let Some(encoding) = geom.as_written(options.endianness, options.form) {
        return encoding_to_slice(encoding, out);
    }
    slice_as::<G, GeometryKind>(geom, options, out)
}
