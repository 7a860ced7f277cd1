//! Parts of an encoding.

ghost use Rattle.std.specs.Prelude.{◌≡◌, ◌+◌, ◌<◌, ◌≤◌, ◌∷◌, get_or, length, take, drop, IfSome};
ghost use Rattle.wkb_geom.specs.Found.{IsItemAt};
ghost use Rattle.wkb_geom.specs.Numbers.{AreBytes};
ghost use Rattle.wkb_view.specs.Pieces.{pieces, AreInOrder};

/// `len` bytes from an offset on.
#[inline]
pub(crate) fn subslice<'a>(bytes: &'a [u8], start: usize, len: usize) -> &'a [u8]
    requires { start + len ≤ length bytes.now }
    ensures { result.now ≡ take len (drop start bytes.now) }
{
    let (_, rest) = bytes.split_at(start);
    let (front, _) = rest.split_at(len);
    front
}

/// The offset at which the part at an index begins, of parts that end at these offsets.
#[inline]
fn start_of_part(first: usize, ends: &[usize], i: usize) -> usize
    requires { i < length ends.now }
    ensures { result ≡ get_or (first ∷ ends.now) i 0 }
{
    if i == 0 { first } else { ends[i - 1] }
}

/// The bytes of the part at an index, of parts that end at these offsets; the first of them begins at `first`.
#[tactic(auto, using(crate::proofs::Pieces::part_laws, crate::proofs::Items::slice_laws))]
#[inline]
pub(crate) fn part_at<'a>(
    bytes: &'a [u8],
    first: usize,
    ends: &[usize],
    i: usize,
) -> Option<&'a [u8]>
    requires { AreInOrder first ends.now bytes.now }
    ensures part { IsItemAt (λ b. b.now) result (pieces first ends.now bytes.now) i }
    ensures bytes { IfSome result (λ b. AreBytes b.now) }
{
    if i >= ends.len() {
        return None;
    }
    let start = start_of_part(first, ends, i);
    let end = ends[i];
    Some(subslice(bytes, start, end - start))
}
