//! How many members the bytes can hold, whatever counts claim.

use wkb_geom::Layout;
use wkb_geom::header::MIN_MEMBER_SIZE;

/// How many members the collections and multi polygons of an input may still claim: any number, or as many as its bytes
/// can hold, since each member, at every level, has a header and a count of its own.
#[derive(Clone, Copy)]
pub(crate) enum Claims {
    Any,
    AtMost(u64),
    Exceeded,
}

impl Claims {
    ghost use Rattle.std.specs.Prelude.{◌≡◌, true};
    ghost use Rattle.wkb_view.specs.Entries.{entries_asked};

    /// Takes the members that the count after this header claims. Returns false if there are fewer, and the list for
    /// them asks for an entry.
    #[inline(always)]
    pub(crate) fn take(&mut self, layout: Layout, bytes: &[u8]) -> bool
        ensures { entries_asked MIN_MEMBER_SIZE layout bytes.now ≡ 0 → result ≡ true }
    {
        // The count comes first, so that the compiler keeps it for the list.
        let Ok(count) = layout.count(bytes) else {
            return true;
        };
        let Claims::AtMost(left) = *self else {
            return true;
        };
        let claimed = count as u64;
        if claimed <= left {
            *self = Claims::AtMost(left - claimed);
            return true;
        }
        if layout.after_count(bytes).len() < MIN_MEMBER_SIZE {
            return true;
        }
        *self = Claims::Exceeded;
        false
    }
}
