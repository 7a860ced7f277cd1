//! The geometries that meet a box, as a map window asks for them.

ghost use Rattle.std.specs.Prelude.{◌≡◌, MatchBool, IfOk};
ghost use Rattle.wkb_clients.specs.Windows.{ranges_meet, bounds_meet, Meets, MeetsNone, AreThoseThatMeet};

use crate::boxes::BoundingBox;
use std::alloc::{AllocError, Global};
use wkb::check::{Bounds, Range, bounds};
use wkb::geom::is_at_most;

/// Whether the second range has a number and neither ends before the other begins.
fn ranges_meet(a: Range, b: Range) -> bool
    ensures { result ≡ ranges_meet a b }
{
    b.count > 0 && (is_at_most(a.least, b.greatest) && is_at_most(b.least, a.greatest))
}

/// Whether bounds meet a box; those of an empty geometry meet none.
fn bounds_meet(window: &BoundingBox, found: Bounds) -> bool
    ensures { result ≡ bounds_meet window.now found }
{
    ranges_meet(window.x, found.x) && ranges_meet(window.y, found.y)
}

/// Whether the bytes begin with a geometry whose bounds meet the box.
pub fn meets(window: &BoundingBox, bytes: &[u8]) -> bool
    ensures { MatchBool result (Meets window.now bytes.now) (MeetsNone window.now bytes.now) }
{
    match bounds(bytes) {
        Ok(found) => bounds_meet(window, found),
        Err(_) => false,
    }
}

/// The rows whose geometries meet the box, in their order.
#[tactic(auto, using(wkb::proofs::Kept::keeping_laws))]
pub fn found_in<'a>(
    alloc: Global,
    window: &BoundingBox,
    rows: &[&'a [u8]],
) -> Result<Vec<&'a [u8]>, AllocError>
    ensures { IfOk result (λ found. AreThoseThatMeet window.now rows.now found.items) }
{
    let mut found = Vec::new(alloc);
    for row in rows {
        if !meets(window, row) {
            continue;
        }
        found.push(*row)?;
    }
    Ok(found)
}
