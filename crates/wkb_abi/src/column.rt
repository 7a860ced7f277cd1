//! A column as Arrow has it: the bytes of its rows, where each of them begins, and which rows are null.

ghost use Rattle.std.specs.Prelude.{◌≡◌, ◌+◌, ◌*◌, ◌<◌, ◌≤◌, ◌^◌, length, IfSome, IfNone, IfOk, IfErr};
ghost use Rattle.wkb_check.specs.Public.{DescribesFront};
ghost use Rattle.wkb_abi.specs.Classes.{IsRowStatus, FitsByte};
ghost use Rattle.wkb_abi.specs.Columns.{is_unset_bit, IsSpan, HasNoSpan, Reach, RowsFollow};
ghost use Rattle.wkb_abi.specs.Columns.{RowsFit, IsRow, LacksRow, IsRefusedWith};

use crate::fault::status_of_cause;
use crate::status::{BAD_OFFSETS, NULL_ROW};
use wkb_check::{Summary, check, check_plain};
use wkb_geom::Endianness;
use wkb_geom::words::{u32_at, u64_at};

/// A column of bytes as Arrow has it: binary, large binary, or a slice of one.
#[repr(C)]
#[derive(Clone, Copy, Debug)]
pub struct Column<'a> {
    /// The bytes of the rows.
    pub bytes: &'a [u8],
    /// Where each row begins, and where the last one ends: signed little-endian numbers.
    pub offsets: &'a [u8],
    /// The bytes of an offset, which are 4 or 8.
    pub offset_size: usize,
    /// The validity bitmap, least significant bit first: 0 for a null row. A row without a bit isn't null.
    pub validity: &'a [u8],
    /// The bit of the first row.
    pub validity_offset: usize,
}

impl<'a> Column<'a> {
    /// The bytes of row i, or the status of a row without bytes. On entry `reach` is the end of the rows before it; on
    /// return it includes row i.
    #[inline(always)]
    pub fn row(&self, i: usize, reach: &mut u64) -> Result<&'a [u8], u32>
        requires small { i < 2 ^ 63 }
        requires before { Reach self.now i reach.old }
        ensures reach { Reach self.now (i + 1) reach.new }
        ensures rises { reach.old ≤ reach.new }
        ensures fits { IfOk result (λ row. reach.old + length row.now ≤ reach.new) }
        ensures row { IfOk result (λ row. IsRow self.now i row.now) }
        ensures none { IfErr result (λ status. LacksRow self.now i status) }
        ensures known { IfErr result IsRowStatus }
    {
        let null = is_unset(self.validity, self.validity_offset, i);
        let Some((start, end)) = span_of_row(self.bytes, self.offsets, self.offset_size, i) else {
            return Err(if null { NULL_ROW } else { BAD_OFFSETS });
        };
        let before = *reach;
        *reach = before.max(end);
        if null {
            return Err(NULL_ROW);
        }
        if start < before {
            return Err(BAD_OFFSETS);
        }
        Ok(&self.bytes[start as usize..end as usize])
    }
}

/// Rows with bytes don't overlap, so that all of them are no longer than the bytes of the column.
#[tactic(auto, using(crate::proofs::Spans::rows_follow, crate::proofs::Spans::rows_fit))]
pub fn rows_follow()
    ensures follow { RowsFollow }
    ensures fit { RowsFit }
{}

/// Whether bit `first + i` of a bitmap is 0. A bit past the end of the bitmap isn't.
#[inline(always)]
pub fn is_unset(bitmap: &[u8], first: usize, i: usize) -> bool
    ensures { result ≡ is_unset_bit bitmap.now (first + i) }
{
    // Most columns have no bitmap.
    if bitmap.is_empty() {
        return false;
    }
    // The sum itself may not fit.
    let low = first % 8 + i % 8;
    match bitmap.get(first / 8 + i / 8 + low / 8) {
        Some(byte) => (byte >> (low % 8)) % 2 == 0,
        None => false,
    }
}

/// Offset i of four bytes and the next one, if these aren't negative and don't decrease or pass the end of the bytes.
#[inline(always)]
fn span_of_four(bytes: &[u8], offsets: &[u8], i: usize) -> Option<(u64, u64)>
    requires { i < 2 ^ 63 }
    ensures some { IfSome result (λ span. IsSpan bytes.now offsets.now 4 i span.0 span.1) }
    ensures none { IfNone result (HasNoSpan bytes.now offsets.now 4 i) }
{
    if offsets.len() / 4 <= i + 1 {
        return None;
    }
    let start = u32_at(offsets, 4 * i, Endianness::LittleEndian);
    let end = u32_at(offsets, 4 * (i + 1), Endianness::LittleEndian);
    if end < start || end >= 1 << 31 || bytes.len() < end as usize {
        return None;
    }
    Some((start as u64, end as u64))
}

/// As `span_of_four`, of eight bytes. An offset that isn't past the end isn't negative, since no slice is that long.
#[inline(always)]
fn span_of_eight(bytes: &[u8], offsets: &[u8], i: usize) -> Option<(u64, u64)>
    requires { i < 2 ^ 63 }
    ensures some { IfSome result (λ span. IsSpan bytes.now offsets.now 8 i span.0 span.1) }
    ensures none { IfNone result (HasNoSpan bytes.now offsets.now 8 i) }
{
    if offsets.len() / 8 <= i + 1 {
        return None;
    }
    let start = u64_at(offsets, 8 * i, Endianness::LittleEndian);
    let end = u64_at(offsets, 8 * (i + 1), Endianness::LittleEndian);
    if end < start || (bytes.len() as u64) < end {
        return None;
    }
    Some((start, end))
}

/// Offset i of `size` bytes and the next one, if these aren't negative and don't decrease or pass the end of the bytes.
#[inline(always)]
fn span_of_row(bytes: &[u8], offsets: &[u8], size: usize, i: usize) -> Option<(u64, u64)>
    requires { i < 2 ^ 63 }
    ensures some { IfSome result (λ span. IsSpan bytes.now offsets.now size i span.0 span.1) }
    ensures none { IfNone result (HasNoSpan bytes.now offsets.now size i) }
{
    match size {
        4 => span_of_four(bytes, offsets, i),
        8 => span_of_eight(bytes, offsets, i),
        _ => None,
    }
}

/// The geometry at the start of a row, or the status of its refusal.
///
/// It isn't inlined, so that rows that take the short way don't pay for its frame.
#[inline(never)]
pub fn check_row(row: &[u8]) -> Result<Summary, u32>
    ensures accepted { IfOk result (λ found. DescribesFront row.now found) }
    ensures refused { IfErr result (λ status. IsRefusedWith row.now status) }
    ensures known { IfErr result FitsByte }
{
    match check(row) {
        Ok(found) => Ok(found),
        Err(refused) => Err(status_of_cause(refused.cause)),
    }
}

/// What is at the start of a row, or the status of its refusal. The short way comes first: most rows hold no
/// collection, and it counts in registers.
#[inline(always)]
pub fn found_in(row: &[u8]) -> Result<Summary, u32>
    ensures accepted { IfOk result (λ found. DescribesFront row.now found) }
    ensures refused { IfErr result (λ status. IsRefusedWith row.now status) }
    ensures known { IfErr result FitsByte }
{
    match check_plain(row) {
        Some(plain) => Ok(plain),
        None => check_row(row),
    }
}
