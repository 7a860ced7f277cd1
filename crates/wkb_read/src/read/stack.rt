//! Reading the members of collections, with an explicit stack of open ones (docs/DECISIONS.md, D3).

ghost use Rattle.wkb_geom.specs.declared.code.WkbType.TheVariants as kinds;
ghost use Rattle.std.specs.Prelude.{◌≡◌, ◌++◌, ◌∷◌, [], ◌+◌, ◌<◌, ◌≤◌, ◌^◌, length};
ghost use Rattle.std.specs.Prelude.{IfOk, IfErr};
ghost use Rattle.wkb_read.specs.Prelude.{max_nesting, HasHead, CanCount, next_turn};
ghost use Rattle.wkb_read.specs.Memory.{HasNoMembers, NeedsNone};
ghost use Rattle.wkb_read.specs.Stack.{collection_inside, around, outward, first_member};
ghost use Rattle.wkb_read.specs.Stack.{IsOpen, AreOpen, IsFinished, BeginsAs, Settles, ReadsAs};

use crate::geometry::{GeometryCollection, View, Wkb};
use crate::read::claims::Claims;
use crate::read::{MAX_WKB_NESTING_DEPTH, read_front};
use crate::srids::count_with_srids;
use std::alloc::{AllocError, Global};
use wkb_geom::header::MIN_MEMBER_SIZE;
use wkb_geom::words::COUNT_SIZE;
use wkb_geom::{Cause, Layout, ReadError};
use wkb_view::counts::Counts;
use wkb_view::reserved::{Reserved, counted_list};

/// An open collection: its bytes, from its order byte to the end of the input; how many members follow the one that is
/// being read; and the members so far.
#[derive(Drop)]
pub(crate) struct Open<'a> {
    pub(crate) layout: Layout,
    pub(crate) bytes: &'a [u8],
    pub(crate) left: u32,
    pub(crate) members: Reserved<Wkb<'a>>,
}

/// What the bytes begin with, and the bytes after it: a whole geometry, or a collection up to its first member.
#[derive(Drop)]
pub(crate) enum Begun<'a> {
    Whole(Wkb<'a>, &'a [u8]),
    Opened(Open<'a>, &'a [u8]),
}

/// Reads the count of the collection with this layout, inside `depth` open collections.
#[tactic(auto, unfolding(wkb_geom::specs::Reading::collection_at))]
#[inline(always)]
pub(crate) fn begin_collection<'a>(
    alloc: Global,
    depth: usize,
    layout: Layout,
    bytes: &'a [u8],
    claims: &mut Claims,
    counts: &mut Counts,
) -> Result<Begun<'a>, ReadError>
    requires head { HasHead (λ d. kinds.GeometryCollection d) layout bytes.now }
    requires fits { CanCount counts.old (collection_inside layout depth bytes.now).0 }
    ensures shallow { IfOk result (λ begun. depth < max_nesting) }
    ensures begins { BeginsAs (collection_inside layout) depth bytes.now result
        counts.old counts.new }
    ensures no_memory { HasNoMembers layout bytes.now → NeedsNone result }
{
    if depth >= MAX_WKB_NESTING_DEPTH {
        return Err(ReadError::Cause(Cause::NestingDepthExceeded(MAX_WKB_NESTING_DEPTH)));
    }
    if !claims.take(layout, bytes) {
        return Err(ReadError::Memory);
    }
    let (count, members) = counted_list(alloc, layout, bytes, MIN_MEMBER_SIZE, counts)?;
    let (buf, rest) = bytes.split_at(layout.header_length() + COUNT_SIZE);
    if count == 0 {
        let whole = Wkb {
            kind: View::GeometryCollection(GeometryCollection {
                buf,
                layout,
                members: members.into_vec(),
                with_srids: 0,
            }),
        };
        return Ok(Begun::Whole(whole, rest));
    }
    let collection = Open {
        layout,
        bytes,
        left: count - 1,
        members,
    };
    Ok(Begun::Opened(collection, rest))
}

/// Pushes a collection whose first member is to be read.
#[inline(always)]
pub(crate) fn push_collection<'a>(
    stack: &mut Vec<Open<'a>>,
    collection: Open<'a>,
    counts: &mut Counts,
) -> Result<(), AllocError>
    requires fits { counts.old.turns + 1 < 2 ^ 128 }
    ensures entered { IfOk result
        (λ done. stack.new.items ≡ stack.old.items ++ collection.entry ∷ []) }
    ensures turn { IfOk result (λ done. counts.new ≡ next_turn counts.old) }
    ensures stays { IfErr result (λ e. counts.new ≡ counts.old) }
{
    stack.push(collection)?;
    counts.turns += 1;
    Ok(())
}

/// Puts a finished part into the collection around it, and closes each collection that has all its members. Returns
/// the outermost one once it is closed.
pub(crate) fn close_finished<'a>(
    stack: &mut Vec<Open<'a>>,
    part: Wkb<'a>,
    rest: &'a [u8],
    counts: &mut Counts,
) -> Option<Wkb<'a>>
    requires part { IsFinished (length (around stack.old)) part }
    requires stand { AreOpen (around stack.old) (part.encoding ++ rest.now) }
    requires fits { counts.old.turns + (outward (around stack.old) part rest.now).0.turns <
        2 ^ 128 }
    ensures settles { Settles stack.old part.entry stack.new rest.now result counts.old counts.new }
    ensures fewer { length stack.new.items ≤ length stack.old.items }
{
    let mut finished = part;
    loop {
        let Some(top) = stack.last_mut() else {
            return Some(finished);
        };
        top.members.push(finished);
        if top.left > 0 {
            top.left -= 1;
            counts.turns += 1;
            return None;
        }
        let Some(collection) = stack.pop() else {
            unreachable!()
        };
        let Open {
            layout,
            bytes,
            left: _,
            members,
        } = collection;
        let members = members.into_vec();
        let with_srids = count_with_srids(&members);
        finished = Wkb {
            kind: View::GeometryCollection(GeometryCollection {
                buf: &bytes[..bytes.len() - rest.len()],
                layout,
                members,
                with_srids,
            }),
        };
    }
}

/// Reads the members of the outermost collection, and those of the collections in it, by a loop over a stack.
#[tactic(auto, using(crate::proofs::Stack::loop_laws))]
pub(crate) fn read_collection<'a>(
    alloc: Global,
    outermost: Open<'a>,
    members: &'a [u8],
    claims: &mut Claims,
    counts: &mut Counts,
) -> Result<Wkb<'a>, ReadError>
    requires stands { IsOpen 0 outermost members.now }
    requires fits { CanCount counts.old (first_member 0 outermost members.now).0 }
    ensures { ReadsAs (first_member 0 outermost.entry members.now) result counts.old counts.new }
{
    let mut stack: Vec<Open<'a>> = Vec::new(alloc);
    push_collection(&mut stack, outermost, counts)?;
    let mut bytes = members;
    loop {
        match read_front(alloc, stack.len(), bytes, claims, counts) {
            Ok(Begun::Opened(collection, rest)) => {
                push_collection(&mut stack, collection, counts)?;
                bytes = rest;
            }
            Ok(Begun::Whole(part, rest)) => {
                if let Some(whole) = close_finished(&mut stack, part, rest, counts) {
                    return Ok(whole);
                }
                bytes = rest;
            }
            Err(error) => return Err(error),
        }
    }
}
