//! Whether two geometries that are known to be there have one value.

ghost use Rattle.std.specs.Prelude.{◌≡◌, ◌≤◌, ◌↔◌, length, IsTrue};
ghost use Rattle.wkb_check.specs.Known.{HasGeometry};
ghost use Rattle.wkb_check.specs.Pieces.{own_end};
ghost use Rattle.wkb_rewrite.specs.Shares.{share_in, written_words};

use crate::own::{hold_same_words, is_empty_point, own_bytes};
use wkb_check::{Piece, Pieces};

/// Whether two pieces have the same words, or both are empty points.
#[inline(always)]
#[tactic(auto, using(crate::proofs::Comparing::word_laws))]
fn have_same_words(a: &[u8], x: &Piece, b: &[u8], y: &Piece) -> bool
    requires first { own_end x.now ≤ length a.now }
    requires second { own_end y.now ≤ length b.now }
    requires kind { x.now.kind ≡ y.now.kind }
    requires dimension { x.now.dimension ≡ y.now.dimension }
    requires count { x.now.count ≡ y.now.count }
    ensures { IsTrue result ↔ (written_words a.now x.now ≡ written_words b.now y.now) }
{
    hold_same_words(own_bytes(a, x), x.order, own_bytes(b, y), y.order)
        || (is_empty_point(a, x) && is_empty_point(b, y))
}

/// Whether two pieces say the same of their values.
#[inline(always)]
fn are_alike(a: &[u8], x: &Piece, b: &[u8], y: &Piece) -> bool
    requires first { own_end x.now ≤ length a.now }
    requires second { own_end y.now ≤ length b.now }
    ensures { IsTrue result ↔ (share_in a.now x.now ≡ share_in b.now y.now) }
{
    x.kind == y.kind
        && x.dimension == y.dimension
        && x.count == y.count
        && have_same_words(a, x, b, y)
}

/// Whether the pieces of two geometries are alike, one after another. It looks at no order, no code and no SRID, and
/// ends at the first difference.
#[tactic(auto, using(wkb_check::proofs::Following::fewer_left))]
fn have_like_pieces(a: &[u8], b: &[u8]) -> bool
    requires first { HasGeometry a.now }
    requires second { HasGeometry b.now }
    ensures { (g : HasGeometry a.now) (h : HasGeometry b.now)
        → IsTrue result ↔ (g.value ≡ h.value) }
{
    let mut firsts = Pieces::of(a);
    let mut seconds = Pieces::of(b);
    while let Some(x) = firsts.next() {
        let Some(y) = seconds.next() else {
            return false;
        };
        if !are_alike(a, &x, b, &y) {
            return false;
        }
    }
    seconds.next().is_none()
}

/// Whether the values of two geometries are equal, which are known to be at the start of these bytes.
pub fn have_one_value(a: &[u8], b: &[u8]) -> bool
    requires first { HasGeometry a.now }
    requires second { HasGeometry b.now }
    ensures { (g : HasGeometry a.now) (h : HasGeometry b.now)
        → IsTrue result ↔ (g.value ≡ h.value) }
{
    a == b || have_like_pieces(a, b)
}
