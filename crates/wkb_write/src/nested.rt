//! Collections in collections: their recursion, in measuring and in putting.
//!
//! A *leaf* is a geometry of any kind but a collection. The recursion ends there.

ghost use Rattle.std.specs.Prelude.{◌≡◌, None, false};
ghost use Rattle.wkb_write.specs.Prelude.{Geometry, IsGeometry, AreMembersOf, collection_of, fault};
ghost use Rattle.wkb_write.specs.Prelude.{encoding_of, form_with_flags, inner};
ghost use Rattle.wkb_write.specs.Prelude.{IsAdded, IsLeaf, IsMeasured, Lays, member_encoding, result_of};

use crate::common::*;
use crate::measure::{count_to_write, measured_size, unsupported_dimension};
use wkb_geom::{Dimensions, Endianness, Fault};

/// A kind whose geometries may be collections of more of them. This is all that the recursion knows of a geometry, so
/// that it is proved over few types.
pub trait Nested<G: Dimensioned> {
    // What a geometry means.
    ghost geometry: { G → Geometry };

    /// The members of a collection; none of a leaf.
    fn members_of(geom: &G) -> Option<&[G]>
        ensures { AreMembersOf (geometry geom.now) geometry (G.dimensions geom.now) result };

    /// The size of a leaf without its header, or its first fault.
    fn measure_leaf(geom: &G) -> Measured
        requires { IsLeaf (geometry geom.now) }
        ensures { IsMeasured (geometry geom.now) (result_of result) };

    /// Puts a leaf that has no fault.
    fn put_leaf<S: Sink>(out: &mut Buffered<'_, S>, geom: &G, options: &WriteOptions) -> Put
        requires leaf { IsLeaf (geometry geom.now) }
        requires fault { fault (geometry geom.now) ≡ None }
        requires working { S.has_failed out.old.sink.now ≡ false }
        ensures { Lays S.Sink out.old out.new (encoding_of options.now (geometry geom.now))
            result };

    // Every coordinate fits the dimension.
    ghost lawful: { (g : G) → IsGeometry (geometry g) };
}

/// Adds the size of a collection of these dimensions and members to the size before it. Where the last member is a
/// collection, the last call adds it, as a jump: the stack stays flat along a chain of collections.
#[cycle(measure)]
#[tactic(auto, using(crate::proofs::Collections::added_laws))]
pub fn add_members<G: Dimensioned, K: Nested<G>>(
    before: usize,
    dim: Dimensions,
    members: &[G],
) -> Measured
    ensures { IsAdded before (collection_of K.geometry dim members.now) (result_of result) }
{
    if let Some(n) = unsupported_dimension(dim) {
        return Measured::from(Fault::UnsupportedDimensions(n));
    }
    let Some(count) = count_to_write(members.len() as u128) else {
        return Measured::from(Fault::Count);
    };
    let own = measured_size(COUNT_SIZE as u64 + MEMBER_HEADER_SIZE as u64 * count as u64);
    let count = count as usize;
    let mut total = before.saturating_add(own);
    for (i, member) in members.iter().enumerate() {
        if i + 1 == count {
            if let Some(inner) = K::members_of(member) {
                return add_members::<G, K>(total, member.dim(), inner);
            }
        }
        let size = match measure_geometry::<G, K>(member) {
            Measured::Bytes(size) => size,
            fault => return fault,
        };
        total = total.saturating_add(size);
    }
    Measured::Bytes(total)
}

/// The size of a geometry without its header, or its first fault. `usize::MAX` means that size or any greater one.
#[cycle(measure)]
#[tactic(auto, using(crate::proofs::Collections::added_laws))]
#[inline(always)]
pub fn measure_geometry<G: Dimensioned, K: Nested<G>>(geom: &G) -> Measured
    ensures measured { IsMeasured (K.geometry geom.now) (result_of result) }
{
    match K::members_of(geom) {
        Some(members) => add_members::<G, K>(0, geom.dim(), members),
        None => K::measure_leaf(geom),
    }
}

/// Whether the codes are EWKB's. Members need nothing else of the form, and a bool travels in a register.
#[inline(always)]
fn has_flags(form: Form) -> bool
    ensures { inner form ≡ form_with_flags result }
{
    match form {
        Form::Iso => false,
        Form::Ewkb { srid: _ } => true,
    }
}

/// The form of a member.
#[inline(always)]
fn member_form(has_flags: bool) -> Form
    ensures { result ≡ form_with_flags has_flags }
{
    if has_flags {
        Form::Ewkb { srid: None }
    } else {
        Form::Iso
    }
}

/// Puts a member: a geometry without an SRID. It isn't inlined, and takes its options as two scalars, in registers.
#[cycle(put)]
#[inline(never)]
#[tactic(auto, using(crate::proofs::Steps::member_laws))]
fn put_member<S: Sink, G: Dimensioned, K: Nested<G>>(
    out: &mut Buffered<'_, S>,
    geom: &G,
    order: Endianness,
    has_flags: bool,
) -> Put
    requires fault { fault (K.geometry geom.now) ≡ None }
    requires working { S.has_failed out.old.sink.now ≡ false }
    ensures { Lays S.Sink out.old out.new
        (member_encoding K.geometry order has_flags geom.now) result }
{
    let options = WriteOptions {
        endianness: order,
        form: member_form(has_flags),
    };
    match K::members_of(geom) {
        Some(members) => put_members::<S, G, K>(out, geom.dim(), members, &options),
        None => K::put_leaf(out, geom, &options),
    }
}

/// Puts a collection's header, its count and its members. The last call puts the last member. The compiler makes it a
/// jump, so that the stack stays flat along a chain of collections.
#[cycle(put)]
#[inline(always)]
#[tactic(auto, using(crate::proofs::Steps::members_laws))]
pub fn put_members<S: Sink, G: Dimensioned, K: Nested<G>>(
    out: &mut Buffered<'_, S>,
    dim: Dimensions,
    members: &[G],
    options: &WriteOptions,
) -> Put
    requires fault { fault (collection_of K.geometry dim members.now) ≡ None }
    requires working { S.has_failed out.old.sink.now ≡ false }
    ensures { Lays S.Sink out.old out.new
        (encoding_of options.now (collection_of K.geometry dim members.now)) result }
{
    let count = members.len();
    let order = options.endianness;
    let has_flags = has_flags(options.form);
    let wkb_type = WkbType::GeometryCollection(dimension_to_write(dim));
    out.put_head(options, wkb_type, count as u32)?;
    if count == 0 {
        return Ok(());
    }
    let last = count - 1;
    for i in 0..last {
        put_member::<S, G, K>(out, &members[i], order, has_flags)?;
    }
    put_member::<S, G, K>(out, &members[last], order, has_flags)
}
