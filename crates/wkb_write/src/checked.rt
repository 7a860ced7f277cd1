//! A geometry that was measured, as bytes that can be laid in a slice.

ghost use Rattle.std.specs.Prelude.{◌≡◌, None, length};
ghost use Rattle.wkb_write.specs.Prelude.{encoding_of, fault};

use crate::WriteOptions;
use crate::writable::{Writable, lay_whole};
use std::marker::PhantomData;
use wkb_sink::LayWhole;

/// A geometry of a kind that has no fault, its options, and the size of its encoding.
#[derive(Drop)]
pub struct Checked<'a, G, K: Writable<G>> {
    pub geom: &'a G,
    pub options: &'a WriteOptions,
    pub size: usize,
    pub kind: PhantomData<K>,
    ghost no_fault: { fault (K.geometry geom.now) ≡ None },
    ghost in_full: { size ≡ length (encoding_of options.now (K.geometry geom.now)) },
}

impl<'a, G, K: Writable<G>> LayWhole for Checked<'a, G, K> {
    ghost bytes = { λ c. encoding_of c.options.now (K.geometry c.geom.now) };

    #[inline(always)]
    fn size(&self) -> usize {
        self.size
    }

    #[inline(always)]
    fn lay_whole(&self, slice: &mut [u8]) {
        lay_whole::<G, K>(slice, self.geom, self.options);
    }
}
