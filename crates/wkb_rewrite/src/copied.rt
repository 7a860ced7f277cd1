//! Encodings of which all but the header is already in the input, and can be copied.

ghost use Rattle.std.specs.Prelude.{◌≡◌, ◌≢◌, ◌+◌, ◌-◌, ◌≤◌, List, length, take, IfSome, None, []};
ghost use Rattle.std.specs.Prelude.{true, false};
ghost use Rattle.wkb_geom.specs.declared.header.TheConstants.{MEMBER_HEADER_SIZE, MAX_HEADER_SIZE};
ghost use Rattle.wkb_check.specs.Pieces.{own_end, IsAhead, HasAhead};
ghost use Rattle.wkb_check.specs.Public.{DescribesFront};
ghost use Rattle.wkb_check.specs.declared.pieces.TheConstants.{RING};
ghost use Rattle.wkb_rewrite.specs.Shares.{IsLaidAt, is_empty_point};
ghost use Rattle.wkb_rewrite.specs.Rewritings.{CodeStands, StandsAsWritten, HasPassed};
ghost use Rattle.wkb_rewrite.specs.Copies.{copied_header, copied_encoding, StandsBehindHeader};
ghost use Rattle.wkb_rewrite.specs.Targets.{IsFrontEncoding};

use crate::lay::lay_type_header;
use crate::own::is_empty_point;
use wkb_check::{Piece, Pieces, RING, Summary, size_of_srid};
use wkb_geom::code::{WkbType, of_kind};
use wkb_geom::header::MEMBER_HEADER_SIZE;
use wkb_geom::words::u32_at;
use wkb_geom::{Endianness, Form, by_order};
use wkb_sink::WriteOptions;
use wkb_sink::block::code_and_srid;

/// An encoding in two parts: a header, and bytes that stand in the input as they are written.
#[derive(Drop)]
pub struct Copied<'a> {
    pub options: WriteOptions,
    pub wkb_type: WkbType,
    /// What follows the header.
    pub rest: &'a [u8],
}

/// Whether the words of a piece stand as they are written in an order.
#[inline(always)]
fn has_written_words(buf: &[u8], piece: &Piece, order: Endianness) -> bool
    requires { own_end piece.now ≤ length buf.now }
    ensures order { result ≡ true → piece.now.order ≡ order }
    ensures some { result ≡ true → is_empty_point buf.now piece.now ≡ false }
{
    piece.order == order && !is_empty_point(buf, piece)
}

/// Whether a geometry has the code that is written of it under a form without an SRID; a ring has none.
#[inline(always)]
fn has_written_code(buf: &[u8], piece: &Piece, order: Endianness, form: Form) -> bool
    requires { piece.now.kind ≢ RING → piece.now.begin + MEMBER_HEADER_SIZE ≤ length buf.now }
    ensures { result ≡ true → CodeStands order form buf.now piece.now }
{
    if piece.kind == RING {
        return true;
    }
    let (code, _) = code_and_srid(form, of_kind(piece.kind, piece.dimension));
    u32_at(buf, piece.begin + 1, order) == code
}

/// Whether a piece stands as it is written inside a geometry.
#[inline(always)]
fn stands_as_written(buf: &[u8], piece: &Piece, order: Endianness, form: Form) -> bool
    requires header { piece.now.kind ≢ RING
        → piece.now.begin + MEMBER_HEADER_SIZE ≤ length buf.now }
    requires inside { own_end piece.now ≤ length buf.now }
    ensures { result ≡ true → StandsAsWritten order form buf.now piece.now }
{
    has_written_words(buf, piece, order)
        && piece.srid.is_none()
        && has_written_code(buf, piece, order, form)
}

/// Passes the next piece, if one is to come, and tells whether it stands as it is written inside a geometry.
#[inline(always)]
fn pass_next(buf: &[u8], pieces: &mut Pieces<'_>, order: Endianness, form: Form) -> Option<bool>
    requires ahead { HasAhead pieces.old }
    requires here { pieces.old.bytes.now ≡ buf.now }
    ensures none { result ≡ None → (xs : List Piece) → IsAhead pieces.old xs → xs ≡ [] }
    ensures passed { IfSome result (HasPassed order form buf.now pieces.old pieces.new) }
    ensures same { pieces.new.bytes.now ≡ pieces.old.bytes.now }
{
    if let Some(ring) = pieces.next_if_ring() {
        return Some(stands_as_written(buf, &ring, order, form));
    }
    // Most geometries are bare, and the tests of these are short, and of points the shortest.
    if let Some(point) = pieces.next_if_point(order) {
        return Some(stands_as_written(buf, &point, order, form));
    }
    if let Some(piece) = pieces.next_bare(order) {
        return Some(stands_as_written(buf, &piece, order, form));
    }
    let piece = pieces.next()?;
    Some(stands_as_written(buf, &piece, order, form))
}

impl<'a> Copied<'a> {
    /// The encoding of the geometry in which the check found this, where all that follows its header stands as it is
    /// written.
    pub fn of(buf: &'a [u8], found: &Summary, options: WriteOptions) -> Option<Copied<'a>>
        requires { DescribesFront buf.now found.now }
        ensures { IfSome result (λ c. IsFrontEncoding buf.now options (copied_encoding c)) }
    {
        let WriteOptions { endianness, form } = options;
        by_order!(
            endianness,
            Copied::by_walk(buf, found, WriteOptions { endianness, form })
        )
    }

    #[tactic(auto, using(crate::proofs::Copying::first_stands))]
    #[inline(always)]
    fn by_walk(buf: &'a [u8], found: &Summary, options: WriteOptions) -> Option<Copied<'a>>
        requires { DescribesFront buf.now found.now }
        ensures { IfSome result (λ c. IsFrontEncoding buf.now options (copied_encoding c)) }
    {
        let first = Piece::outermost(buf, found);
        let mut pieces = Pieces::behind(buf, &first);
        if !has_written_words(buf, &first, options.endianness) {
            return None;
        }
        let form = options.form.inner();
        while let Some(stands) = pass_next(buf, &mut pieces, options.endianness, form) {
            if !stands {
                return None;
            }
        }
        Some(Copied::behind_header(buf, found, &first, options))
    }

    /// The encoding of the geometry that has this first piece, where all behind its header stands as it is written.
    #[inline(always)]
    pub fn behind_header(
        buf: &'a [u8],
        found: &Summary,
        first: &Piece,
        options: WriteOptions,
    ) -> Copied<'a>
        requires found { DescribesFront buf.now found.now }
        requires stands { StandsBehindHeader buf.now found.now.bytes first.now options }
        ensures { IsFrontEncoding buf.now options (copied_encoding result) }
    {
        let start = MEMBER_HEADER_SIZE + size_of_srid(first.srid);
        Copied {
            options,
            wkb_type: of_kind(first.kind, first.dimension),
            rest: &buf[start..found.bytes],
        }
    }

    /// Lays its header at the start of a slice that is as long as any header, and returns the index after it.
    #[inline(always)]
    #[tactic(auto, using(crate::proofs::Laying::copy_laws))]
    pub fn lay_header(&self, out: &mut [u8]) -> usize
        requires { MAX_HEADER_SIZE ≤ length out.old }
        ensures header { take result out.new ≡ copied_header self.now }
        ensures inside { result ≤ length out.new }
    {
        lay_type_header(self.wkb_type, self.options, out, 0)
    }

    /// Lays the encoding at the start of a slice, and returns the index after it.
    #[tactic(auto, using(crate::proofs::Laying::copy_laws))]
    pub fn lay(&self, out: &mut [u8]) -> usize
        requires { length (copied_encoding self.now) ≤ length out.old }
        ensures { IsLaidAt out.old out.new 0 result (copied_encoding self.now) }
    {
        let start = lay_type_header(self.wkb_type, self.options, out, 0);
        let end = start + self.rest.len();
        out[start..end].copy_from_slice(self.rest);
        end
    }
}
