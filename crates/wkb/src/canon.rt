//! The canonical form: the one encoding of the value at the start of an input. Inputs are checked, and then rewritten
//! and compared in place.

ghost use Rattle.std.specs.Prelude.{◌≡◌, ◌<◌, ◌⊎◌, IfOk, IfErr, MatchBool};
ghost use Rattle.wkb_geom.specs.Reading.{type_kind};
ghost use Rattle.wkb_geom.specs.declared.code.TheConstants.{POLYGON};
ghost use Rattle.wkb_geom.specs.Errors.{IsMemory};
ghost use Rattle.wkb_read.specs.Memory.{IsNotMemory};
ghost use Rattle.wkb_geom.specs.Encodings.{IsRewritingWithSrid};
ghost use Rattle.wkb_read.specs.Reads.{IsRefusal};
ghost use Rattle.wkb_check.specs.Public.{DescribesFront, DescribesOnlyFront};
ghost use Rattle.wkb_rewrite.specs.Copies.{copied_encoding};
ghost use Rattle.wkb.specs.Canonical.{IsRewritingUnder, IsRefusedUnder, IsPairRefusal};
ghost use Rattle.wkb.specs.Canonical.{IsAccepted, HaveOneValue, HaveTwoValues};

use std::alloc::Global;
use wkb_check::{Summary, check};
use wkb_geom::code::POLYGON;
use wkb_geom::error::{WkbError, WkbResult};
use wkb_geom::header::{MAX_HEADER_SIZE, SRID_SIZE};
use wkb_geom::{Endianness, Form};
use wkb_rewrite::{Copied, have_one_value, lay_one_piece, lay_pieces, size_with_own_srid};
use wkb_write::WriteOptions;

/// The encoding under the options of the geometry at the start of the bytes.
///
/// Rejected as `read_wkb` rejects the bytes. Only the result is allocated.
///
/// ```
/// // A key of the value: the same bytes whatever the order, the codes and the SRIDs it was read in.
/// let key = canonical(alloc, bytes, &WriteOptions::default())?;
/// ```
pub fn canonical(alloc: Global, buf: &[u8], options: &WriteOptions) -> WkbResult<Vec<u8>>
    ensures ok { IfOk result
        (λ encoding. IsRewritingUnder options.now buf.now encoding.items) }
    ensures err { IfErr result (λ e. IsMemory e ⊎ IsRefusedUnder options.now buf.now e) }
    ensures memory { IfErr result (λ e. IsMemory e → IsAccepted buf.now) }
{
    let summary = summary_or_error(buf)?;
    rewritten(alloc, buf, &summary, *options)
}

/// The encoding under EWKB with the geometry's own SRID, where it has one.
///
/// Rejected as `read_wkb` rejects the bytes. Only the result is allocated.
pub fn canonical_with_srid(alloc: Global, buf: &[u8], order: Endianness) -> WkbResult<Vec<u8>>
    ensures ok { IfOk result (λ encoding. IsRewritingWithSrid order buf.now encoding.items) }
    ensures err { IfErr result (λ e. IsMemory e ⊎ IsRefusal buf.now e) }
    ensures memory { IfErr result (λ e. IsMemory e → IsAccepted buf.now) }
{
    let found = summary_or_error(buf)?;
    let options = WriteOptions {
        endianness: order,
        form: Form::Ewkb { srid: found.srid },
    };
    rewritten(alloc, buf, &found, options)
}

/// Whether two inputs begin with geometries of the same value, SRIDs aside.
///
/// Rejected as `read_wkb` rejects the first, which is checked before the second is looked at, or else the second.
/// Nothing is allocated.
///
/// ```
/// // Whether a geometry is stored already, in whatever byte order.
/// let is_stored = same(alloc, stored, bytes)?;
/// ```
pub fn same(alloc: Global, a: &[u8], b: &[u8]) -> WkbResult<bool>
    ensures ok { IfOk result
        (λ equal. MatchBool equal (HaveOneValue a.now b.now) (HaveTwoValues a.now b.now)) }
    ensures err { IfErr result (λ e. IsMemory e ⊎ IsPairRefusal a.now b.now e) }
    ensures no_memory { IfErr result IsNotMemory }
{
    let _unused = alloc;
    let _first = summary_or_error(a)?;
    let _second = summary_or_error(b)?;
    Ok(have_one_value(a, b))
}

/// What the check finds at the start of the bytes, or the error that reading them returns.
fn summary_or_error(buf: &[u8]) -> WkbResult<Summary>
    ensures front { IfOk result (λ found. DescribesFront buf.now found) }
    ensures one_front { IfOk result (λ found. DescribesOnlyFront buf.now found) }
    ensures refused { IfErr result (λ e. IsRefusal buf.now e) }
    ensures no_memory { IfErr result IsNotMemory }
{
    match check(buf) {
        Ok(found) => Ok(found),
        Err(refused) => Err(WkbError::from(refused.cause)),
    }
}

/// The encoding whose parts these are.
fn copied_to_vec(alloc: Global, copied: &Copied) -> WkbResult<Vec<u8>>
    ensures ok { IfOk result (λ encoding. encoding.items ≡ copied_encoding copied.now) }
    ensures err { IfErr result IsMemory }
{
    let mut header = [0; MAX_HEADER_SIZE];
    let end = copied.lay_header(&mut header);
    let mut encoding = Vec::with_capacity(alloc, end + copied.rest.len())?;
    encoding.extend_from_slice(&header[..end])?;
    encoding.extend_from_slice(copied.rest)?;
    Ok(encoding)
}

/// The encoding of a point or a line string in which the check found this.
fn rewritten_piece(
    alloc: Global,
    buf: &[u8],
    found: &Summary,
    options: WriteOptions,
) -> WkbResult<Vec<u8>>
    requires here { DescribesFront buf.now found.now }
    requires kind { type_kind found.now.wkb_type < POLYGON }
    ensures ok { IfOk result
        (λ encoding. IsRewritingUnder options buf.now encoding.items) }
    ensures err { IfErr result IsMemory }
{
    let mut encoding = vec![in alloc; 0; size_with_own_srid(buf, found, options.form)]?;
    lay_one_piece(buf, found, options, encoding.as_mut_slice());
    Ok(encoding)
}

/// The encoding of the geometry in which the check found this.
fn rewritten(
    alloc: Global,
    buf: &[u8],
    found: &Summary,
    options: WriteOptions,
) -> WkbResult<Vec<u8>>
    requires { DescribesFront buf.now found.now }
    ensures ok { IfOk result
        (λ encoding. IsRewritingUnder options buf.now encoding.items) }
    ensures err { IfErr result IsMemory }
{
    if found.wkb_type.kind() < POLYGON {
        return rewritten_piece(alloc, buf, found, options);
    }
    if let Some(copied) = Copied::of(buf, found, options) {
        return copied_to_vec(alloc, &copied);
    }
    // An encoding is at most an SRID longer than the geometry, so that no walk is needed for its size.
    let mut encoding = vec![in alloc; 0; found.bytes + SRID_SIZE]?;
    let size = lay_pieces(buf, options, encoding.as_mut_slice());
    encoding.truncate(size);
    Ok(encoding)
}
