//! One geometry whose members are the geometries that the rows of a column begin with.

ghost use Rattle.std.specs.Prelude.{◌≡◌, ◌≢◌, ◌⊎◌, ◌↔◌, ◌+◌, ◌<◌, ◌≤◌, ◌^◌, length, true, false, None};
ghost use Rattle.std.specs.Prelude.{IfSome, IfOk, IfErr};
ghost use Rattle.wkb_check.specs.Public.{DescribesFrontWithin, member_room};
ghost use Rattle.wkb_sink.specs.Blocks.{LaysAt};
ghost use Rattle.wkb_abi.specs.Classes.{IsRefusalStatus, IsNoRefusal, IsRowStatus, TellsOfRow};
ghost use Rattle.wkb_c.specs.Collections.{collect_asked, IsAsked, part_of, TakesMember, front_of, IsUnwanted, IsUnfit};
ghost use Rattle.wkb_c.specs.Collections.{IsFirstUnfit, IsFirstUnfitFor, WritesMember, WritesMembers, AreMeasured};
ghost use Rattle.wkb_c.specs.Collections.{IsWhole, IsCollected, IsStatusOfCollecting};
ghost use Rattle.wkb_abi.specs.Columns.{Reach, IsRow, LacksRow};
ghost use Rattle.wkb_abi.specs.Room.{AreWritten, FindsNoRoom};
ghost use Rattle.wkb_abi.specs.RowItems.{RowHas};
ghost use Rattle.wkb_abi.specs.Statuses.{IsFaultWithin};

use crate::write::{options_for, write_requested};
use wkb_abi::column::Column;
use wkb_abi::fault::{NO_FAULT, WkbFault, report_refusal};
use wkb_abi::options::{Options, Request, request_of};
use wkb_abi::status::{INCORRECT_TYPE, NO_ROOM, OK, TOO_MANY_ROWS, UNKNOWN_OPTION};
use wkb_check::{Summary, check_member, check_plain};
use wkb_geom::Dimension;
use wkb_geom::code::{GEOMETRY_COLLECTION, MULTI_POINT, WkbType, of_kind};
use wkb_geom::header::MAX_HEADER_SIZE;
use wkb_geom::words::COUNT_SIZE;
use wkb_sink::WriteOptions;
use wkb_sink::block::{lay_count, lay_header};

/// The longest header with a count.
const MAX_FRONT_SIZE: usize = MAX_HEADER_SIZE + COUNT_SIZE;

/// What rows are collected into: a geometry of this kind and dimension, written under these options.
#[derive(Clone, Copy)]
pub struct CollectTarget {
    pub kind: u32,
    pub dimension: Dimension,
    pub options: WriteOptions,
}

/// What the numbers ask for, if they mean something.
fn collect_target_of(kind: u32, dimension: u32, options: &Options) -> Option<CollectTarget>
    ensures means { result ≡ collect_asked kind dimension options.now }
    ensures asked { IfSome result (IsAsked kind dimension options.now) }
{
    if kind < MULTI_POINT || GEOMETRY_COLLECTION < kind {
        return None;
    }
    let dimension = Dimension::of_thousands(dimension)?;
    let request = request_of(options)?;
    Some(CollectTarget {
        kind,
        dimension,
        // No row's own SRID is written.
        options: options_for(request, None),
    })
}

impl CollectTarget {
    /// Whether a geometry of this type is one of its members, once its SRID is dropped.
    fn takes(&self, member: WkbType) -> bool
        ensures fits { result ≡ true → TakesMember self.now member }
        ensures unfit { result ≡ false → TakesMember self.now member → ⊥ }
    {
        // No kind has a greater number than a collection, which takes any member.
        self.kind >= GEOMETRY_COLLECTION
            || (member.kind() + 3 == self.kind && member.dimension() == self.dimension)
    }

    /// Lays its header and the number of its members, and returns where they end.
    #[tactic(auto, using(wkb_sink::proofs::Behind::behind_laws))]
    fn lay_front(&self, rows: u32, front: &mut [u8]) -> usize
        requires { MAX_FRONT_SIZE ≤ length front.old }
        ensures bytes { LaysAt 0 result front.old front.new (front_of self.now rows) }
        ensures bound { result ≤ MAX_FRONT_SIZE }
    {
        let wkb_type = of_kind(self.kind, self.dimension);
        let at = lay_header(front, 0, &self.options, wkb_type);
        lay_count(front, at, self.options.endianness, rows)
    }
}

/// The bytes of row i, as `Column::row` returns them.
///
/// It isn't inlined, so that the loop over the rows keeps nothing of the column on the stack.
#[inline(never)]
fn row_of<'a>(column: &Column<'a>, i: usize, reach: &mut u64) -> Result<&'a [u8], u32>
    requires small { i < 2 ^ 63 }
    requires before { Reach column.now i reach.old }
    ensures reach { Reach column.now (i + 1) reach.new }
    ensures row { IfOk result (λ row. IsRow column.now i row.now) }
    ensures none { IfErr result (λ status. LacksRow column.now i status) }
    ensures known { IfErr result IsRowStatus }
{
    column.row(i, reach)
}

/// The geometry at the start of a row that is to be a member, if the check's short way finds it.
///
/// It isn't inlined, so that what takes the long way doesn't lie above its frame.
#[tactic(auto, using(crate::proofs::Gathering::plain_inside))]
#[inline(never)]
fn plain_member(row: &[u8]) -> Option<Summary>
    ensures { IfSome result (λ found. DescribesFrontWithin member_room row.now found) }
{
    check_plain(row)
}

/// The geometry at the start of a row that is to be a member; or the status of the one refusal, and its numbers.
#[inline(never)]
fn check_member_row(row: &[u8], fault: &mut WkbFault) -> Result<Summary, u32>
    ensures accepted { IfOk result (λ found. DescribesFrontWithin member_room row.now found) }
    ensures refused { IfErr result (λ status. IsFaultWithin member_room row.now status fault.new) }
    ensures refusal { IfErr result IsRefusalStatus }
    ensures kept { IfOk result (λ _. fault.new ≡ fault.old) }
{
    match check_member(row) {
        Ok(found) => Ok(found),
        Err(refused) => Err(report_refusal(&refused, fault)),
    }
}

/// Writes the encoding of a row's geometry as a member, if there is room, and returns its length; or the status and the
/// fault of one that is no member.
fn write_found(
    row: &[u8],
    found: &Summary,
    target: &CollectTarget,
    out: &mut [u8],
    fault: &mut WkbFault,
) -> Result<u64, u32>
    requires { DescribesFrontWithin member_room row.now found.now }
    ensures written { IfOk result (WritesMember target.now out.old out.new row.now) }
    ensures unfit { IfErr result
        (λ status. IsUnwanted (part_of target.now) row.now status fault.new) }
    ensures kept { IfOk result (λ _. fault.new ≡ fault.old) }
{
    if !target.takes(found.wkb_type) {
        *fault = WkbFault {
            status: INCORRECT_TYPE,
            ..NO_FAULT
        };
        return Err(INCORRECT_TYPE);
    }
    let request = Request::Encoding(target.options.inner());
    let mut size = 0;
    let _status = write_requested(row, found, request, out, &mut size);
    Ok(size)
}

/// Writes the encoding of row i's geometry as a member, if there is room, and returns its length; or the status and the
/// fault of a row that is no member.
fn write_row(
    column: &Column,
    i: usize,
    reach: &mut u64,
    target: &CollectTarget,
    out: &mut [u8],
    fault: &mut WkbFault,
) -> Result<u64, u32>
    requires small { i < 2 ^ 63 }
    requires before { Reach column.now i reach.old }
    ensures reach { Reach column.now (i + 1) reach.new }
    ensures written { IfOk result (RowHas (WritesMember target.now out.old out.new) column.now i) }
    ensures unfit { IfErr result
        (λ status. IsUnfit column.now (part_of target.now) i status fault.new) }
    ensures known { IfErr result TellsOfRow }
    ensures kept { IfOk result (λ _. fault.new ≡ fault.old) }
    ensures lacks_kept { IfErr result (λ status. IsNoRefusal status → fault.new ≡ fault.old) }
{
    let row = match row_of(column, i, reach) {
        Ok(row) => row,
        Err(status) => return Err(status),
    };
    if let Some(plain) = plain_member(row) {
        return write_found(row, &plain, target, out, fault);
    }
    match check_member_row(row, fault) {
        Ok(found) => write_found(row, &found, target, out, fault),
        Err(status) => Err(status),
    }
}

/// The length of a slice fits a word. This stands for the proof alone, which sees the bound only as a clause.
#[inline(always)]
fn fits_word(bytes: &[u8])
    ensures { length bytes.now < 2 ^ 64 }
{}

/// Writes the encodings of the rows' geometries as members, one behind another as far as there is room, and returns how
/// long they are together. Where a row begins with none, the first such row is reported, with its status and its fault.
#[tactic(auto, using(crate::proofs::Gathering::none_written))]
fn write_members(
    column: &Column,
    rows: usize,
    target: &CollectTarget,
    out: &mut [u8],
    fault: &mut WkbFault,
    row: &mut u64,
) -> Result<u64, u32>
    requires few { rows < 2 ^ 32 }
    ensures written { IfOk result (WritesMembers column.now target.now rows out.old out.new) }
    ensures unfit { IfErr result
        (λ status. IsFirstUnfit column.now (part_of target.now) rows row.new status fault.new) }
    ensures known { IfErr result TellsOfRow }
    ensures kept { IfOk result (λ _. fault.new ≡ fault.old) }
    ensures lacks_kept { IfErr result (λ status. IsNoRefusal status → fault.new ≡ fault.old) }
    ensures row_kept { IfOk result (λ _. row.new ≡ row.old) }
{
    fits_word(column.bytes);
    let mut reach = 0;
    let mut size: u64 = 0;
    for i in 0..rows {
        let at = size.min(out.len() as u64) as usize;
        match write_row(column, i, &mut reach, target, &mut out[at..], fault) {
            Ok(length) => size += length,
            Err(status) => {
                *row = i as u64;
                return Err(status);
            }
        }
    }
    Ok(size)
}

/// Writes the geometry with the members that the rows begin with, whose encodings are together this long, and reports
/// its length. Without room nothing is written.
fn write_collected(
    column: &Column,
    rows: usize,
    target: &CollectTarget,
    inside: u64,
    out: &mut [u8],
    size: &mut u64,
    fault: &mut WkbFault,
    row: &mut u64,
) -> u32
    requires few { rows < 2 ^ 32 }
    requires measured { AreMeasured column.now target.now rows inside }
    ensures written { result ≡ OK → AreWritten (IsWhole column.now target.now rows)
        out.old out.new size.new }
    ensures no_room { result ≡ NO_ROOM → FindsNoRoom (IsWhole column.now target.now rows)
        out.old size.new }
    ensures bound { size.new ≤ length column.now.bytes.now + 13 }
    ensures known { (result ≡ OK) ⊎ (result ≡ NO_ROOM) }
    ensures out_kept { result ≢ OK → out.new ≡ out.old }
    ensures fault_kept { fault.new ≡ fault.old }
    ensures row_kept { row.new ≡ row.old }
{
    let mut front = [0; MAX_FRONT_SIZE];
    let start = target.lay_front(rows as u32, &mut front);
    let wanted = start as u64 + inside;
    *size = wanted;
    if (out.len() as u64) < wanted {
        return NO_ROOM;
    }
    out[..start].copy_from_slice(&front[..start]);
    // The rows begin with members, so that any may be taken.
    let any = CollectTarget {
        kind: GEOMETRY_COLLECTION,
        ..*target
    };
    match write_members(column, rows, &any, &mut out[start..], fault, row) {
        Ok(_inside) => OK,
        Err(_status) => unreachable!(),
    }
}

/// Writes the encoding, under the options, of the geometry of this kind and dimension that has the geometries at the
/// start of the first rows of a column as its members, in order, and its length.
///
/// The rows are those of `wkb_raw_column_check`. Members keep neither their byte order nor their SRID, and
/// `EWKB_OWN_SRID` writes none. `NO_ROOM` writes the length too, but no encoding. Kind, dimension and options are
/// checked first; then the first row that is no valid member rejects the whole call: `row` is its index, and its fault
/// is counted from its own front.
#[tactic(auto, using(crate::proofs::Collecting::collected_laws))]
#[unsafe(no_mangle)]
pub extern "C" fn wkb_raw_collect(
    column: &Column<'_>,
    rows: usize,
    kind: u32,
    dimension: u32,
    options: &Options,
    out: &mut [u8],
    size: &mut u64,
    fault: &mut WkbFault,
    row: &mut u64,
) -> u32
    ensures written { result ≡ OK → AreWritten
        (IsCollected column.now rows kind dimension options.now) out.old out.new size.new }
    ensures no_room { result ≡ NO_ROOM → FindsNoRoom
        (IsCollected column.now rows kind dimension options.now) out.old size.new }
    ensures unknown { (result ≡ UNKNOWN_OPTION) ↔
        (collect_asked kind dimension options.now ≡ None) }
    ensures too_many { (result ≡ TOO_MANY_ROWS) ↔
        ((collect_asked kind dimension options.now ≢ None) × (2 ^ 32 ≤ rows)) }
    ensures refused { TellsOfRow result → IsFirstUnfitFor kind dimension column.now rows row.new
        result fault.new }
    ensures bound { (result ≡ OK) ⊎ (result ≡ NO_ROOM) →
        size.new ≤ length column.now.bytes.now + 13 }
    ensures known { IsStatusOfCollecting result }
    ensures out_kept { result ≢ OK → out.new ≡ out.old }
    ensures size_kept { result ≢ OK → result ≢ NO_ROOM → size.new ≡ size.old }
    ensures fault_kept { IsNoRefusal result → fault.new ≡ fault.old }
    ensures row_kept { result < 16 → row.new ≡ row.old }
{
    let Some(target) = collect_target_of(kind, dimension, options) else {
        return UNKNOWN_OPTION;
    };
    if rows as u64 >= 1 << 32 {
        return TOO_MANY_ROWS;
    }
    // Without room the members are only checked and measured.
    match write_members(column, rows, &target, &mut [], fault, row) {
        Ok(inside) => write_collected(column, rows, &target, inside, out, size, fault, row),
        Err(status) => status,
    }
}
