//! The encoding of a geometry that is known to be there, piece by piece.

ghost use Rattle.std.specs.Prelude.{◌≡◌, ◌≢◌, ◌+◌, ◌<◌, ◌≤◌};
ghost use Rattle.wkb_geom.specs.declared.common.Endianness.{Endianness};
ghost use Rattle.wkb_geom.specs.declared.code.TheConstants.{MULTI_POINT, POLYGON};
ghost use Rattle.wkb_geom.specs.declared.header.TheConstants.{SRID_SIZE};
ghost use Rattle.wkb_geom.specs.Encodings.{form_srid};
ghost use Rattle.wkb_geom.specs.Reading.{type_kind};
ghost use Rattle.wkb_check.specs.Known.{HasGeometry};
ghost use Rattle.wkb_check.specs.Pieces.{IsPieceAt};
ghost use Rattle.wkb_check.specs.Public.{DescribesFront};
ghost use Rattle.wkb_rewrite.specs.Targets.{IsFrontSize, FrontFits, LaysFront};

use crate::copied::Copied;
use crate::lay::lay_piece;
use wkb_check::{Piece, Pieces, Summary, size_of_srid};
use wkb_geom::code::{MULTI_POINT, WkbType};
use wkb_geom::header::SRID_SIZE;
use wkb_geom::{Endianness, Form, by_order};
use wkb_sink::{WriteOptions, other};

/// The SRID that is written under a form.
#[inline(always)]
fn srid_of_form(form: Form) -> Option<u32>
    ensures { result ≡ form_srid form }
{
    match form {
        Form::Iso => None,
        Form::Ewkb { srid } => srid,
    }
}

/// As `encoded_size`, where only the geometry itself may have an SRID: rings and the points of a multi point have none.
#[inline(always)]
pub fn size_with_own_srid(buf: &[u8], found: &Summary, form: Form) -> usize
    requires here { DescribesFront buf.now found.now }
    requires kind { type_kind found.now.wkb_type ≤ MULTI_POINT }
    ensures size { (order : Endianness) → IsFrontSize buf.now order form result }
    ensures bound { result ≤ found.now.bytes + SRID_SIZE }
{
    let first = Piece::outermost(buf, found);
    found.bytes + size_of_srid(srid_of_form(form)) - size_of_srid(first.srid)
}

/// The size of the encoding, under a form, of the geometry that the check found. It doesn't depend on the byte order.
pub fn encoded_size(buf: &[u8], found: &Summary, form: Form) -> usize
    requires { DescribesFront buf.now found.now }
    ensures size { (order : Endianness) → IsFrontSize buf.now order form result }
    ensures bound { result ≤ found.now.bytes + SRID_SIZE }
{
    if found.wkb_type.kind() <= MULTI_POINT {
        return size_with_own_srid(buf, found, form);
    }
    // Only SRIDs make an encoding longer or shorter.
    let mut size = found.bytes + size_of_srid(srid_of_form(form));
    for piece in Pieces::of(buf) {
        size -= size_of_srid(piece.srid);
    }
    size
}

/// Lays the encoding of a geometry that is known to be at the start of these bytes at the start of a slice, which has
/// room for it, and returns its size. What comes after it in the slice stays as it was.
///
/// It isn't inlined, so that what `lay_encoding` lays by shorter code doesn't pay for its frame.
#[inline(never)]
pub fn lay_pieces(buf: &[u8], options: WriteOptions, out: &mut [u8]) -> usize
    requires here { HasGeometry buf.now }
    requires room { FrontFits buf.now options out.old }
    ensures size { IsFrontSize buf.now options.endianness options.form result }
    ensures laid { LaysFront buf.now options out.old out.new }
{
    let first = Piece::of_geometry(buf, 0);
    let WriteOptions { endianness, form } = options;
    by_order!(
        endianness,
        lay_each_piece(buf, &first, WriteOptions { endianness, form }, out)
    )
}

/// As `lay_pieces`, by the first piece, in an order that is a constant where this is inlined. Plain headers in the
/// other order, and the rings behind them, have code of their own, where that order is a constant, too.
#[tactic(auto, using(wkb_check::proofs::Following::fewer_left))]
#[inline(always)]
fn lay_each_piece(buf: &[u8], first: &Piece, options: WriteOptions, out: &mut [u8]) -> usize
    requires here { HasGeometry buf.now }
    requires first { IsPieceAt buf.now 0 first.now }
    requires room { FrontFits buf.now options out.old }
    ensures size { IsFrontSize buf.now options.endianness options.form result }
    ensures laid { LaysFront buf.now options out.old out.new }
{
    let WriteOptions { endianness, form } = options;
    let mut pieces = Pieces::behind(buf, first);
    let mut at = lay_piece(buf, first, options, out, 0);
    let inner = WriteOptions {
        endianness,
        form: form.inner(),
    };
    loop {
        if let Some(point) = pieces.next_if_point(other(endianness)) {
            at = lay_piece(buf, &point, inner, out, at);
        } else if let Some(piece) = pieces.next_bare(other(endianness)) {
            at = lay_piece(buf, &piece, inner, out, at);
            while let Some(ring) = pieces.next_if_ring() {
                at = lay_piece(buf, &ring, inner, out, at);
            }
        } else if let Some(piece) = pieces.next() {
            at = lay_piece(buf, &piece, inner, out, at);
        } else {
            return at;
        }
    }
}

/// As `lay_encoding`, for a geometry in the other order: both orders are constants, for which the calls are compiled.
///
/// It isn't marked as inlined, so that LLVM optimizes it twice: else points share the code of other pieces.
fn lay_turned(buf: &[u8], found: &Summary, options: WriteOptions, out: &mut [u8]) -> usize
    requires here { DescribesFront buf.now found.now }
    requires turned { found.now.order ≢ options.endianness }
    requires room { FrontFits buf.now options out.old }
    ensures size { IsFrontSize buf.now options.endianness options.form result }
    ensures laid { LaysFront buf.now options out.old out.new }
{
    let WriteOptions { endianness, form } = options;
    by_order!(
        endianness,
        {
            let order = other(endianness);
            let first = Piece::outermost(buf, &Summary { order, ..*found });
            lay_each_piece(buf, &first, WriteOptions { endianness, form }, out)
        }
    )
}

/// As `lay_pieces`, for the geometry in which the check found this. Where all that follows its header stands as it is
/// written, it is copied at once.
pub fn lay_encoding(buf: &[u8], found: &Summary, options: WriteOptions, out: &mut [u8]) -> usize
    requires here { DescribesFront buf.now found.now }
    requires room { FrontFits buf.now options out.old }
    ensures size { IsFrontSize buf.now options.endianness options.form result }
    ensures laid { LaysFront buf.now options out.old out.new }
{
    let first = Piece::outermost(buf, found);
    if first.has_coordinates() {
        // It is the only piece.
        return lay_piece(buf, &first, options, out, 0);
    }
    if found.order != options.endianness {
        return lay_turned(buf, found, options, out);
    }
    match Copied::of(buf, found, options) {
        Some(copied) => copied.lay(out),
        None => lay_pieces(buf, options, out),
    }
}

/// Lays the encoding of a polygon that begins with this piece at the start of a slice.
///
/// Its rings follow one another, and no other piece follows them, so that each is laid by short code.
#[tactic(auto, using(wkb_check::proofs::Following::fewer_left))]
#[inline(always)]
fn lay_rings(buf: &[u8], first: &Piece, options: WriteOptions, out: &mut [u8])
    requires here { HasGeometry buf.now }
    requires first { IsPieceAt buf.now 0 first.now }
    requires polygon { first.now.kind ≡ POLYGON }
    requires room { FrontFits buf.now options out.old }
    ensures laid { LaysFront buf.now options out.old out.new }
{
    let mut pieces = Pieces::behind(buf, first);
    let mut at = lay_piece(buf, first, options, out, 0);
    let inner = WriteOptions {
        endianness: options.endianness,
        form: options.form.inner(),
    };
    while let Some(ring) = pieces.next_if_ring() {
        at = lay_piece(buf, &ring, inner, out, at);
    }
}

/// As `lay_encoding`, for a polygon.
#[inline(always)]
pub fn lay_polygon(buf: &[u8], found: &Summary, options: WriteOptions, out: &mut [u8])
    requires here { DescribesFront buf.now found.now }
    requires kind { type_kind found.now.wkb_type ≡ POLYGON }
    requires room { FrontFits buf.now options out.old }
    ensures laid { LaysFront buf.now options out.old out.new }
{
    let first = Piece::polygon(buf, found);
    let form = options.form;
    // In the first two arms both orders are constants, for which the call is compiled. In the last they are equal.
    match (first.order, options.endianness) {
        (Endianness::BigEndian, Endianness::LittleEndian) => {
            let endianness = Endianness::LittleEndian;
            lay_rings(buf, &first, WriteOptions { endianness, form }, out);
        }
        (Endianness::LittleEndian, Endianness::BigEndian) => {
            let endianness = Endianness::BigEndian;
            lay_rings(buf, &first, WriteOptions { endianness, form }, out);
        }
        _ => {
            Copied::behind_header(buf, found, &first, options).lay(out);
        }
    }
}

/// As `lay_encoding`, for a geometry that is one piece: a point or a line string.
#[inline(always)]
pub fn lay_one_piece(buf: &[u8], found: &Summary, options: WriteOptions, out: &mut [u8])
    requires here { DescribesFront buf.now found.now }
    requires kind { type_kind found.now.wkb_type < POLYGON }
    requires room { FrontFits buf.now options out.old }
    ensures laid { LaysFront buf.now options out.old out.new }
{
    // In the first arm the kind is a constant, for which the calls are compiled.
    match found.wkb_type {
        WkbType::Point(_) => lay_piece(buf, &Piece::outermost(buf, found), options, out, 0),
        _ => lay_piece(buf, &Piece::outermost(buf, found), options, out, 0),
    };
}
