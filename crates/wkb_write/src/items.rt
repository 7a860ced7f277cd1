//! Items after a count: the rings of a polygon, the members of a multi geometry.

ghost use Rattle.std.specs.Prelude.{◌≡◌, ◌<◌, ℕ, None, false, length, IfSome};
ghost use Rattle.wkb_write.specs.Prelude.{Geometry, IsGeometry, ItemList, LaysItem, ListsItems, MeasuresItem};
ghost use Rattle.wkb_write.specs.Prelude.{IsMeasureOf, IsOfWritable, HasMeasures, bytes_behind_header, fault};
ghost use Rattle.wkb_write.specs.Prelude.{items_measure};

use crate::common::*;
use crate::measure::count_to_write;

/// A kind whose geometries are items after a count.
pub trait Items<G: Dimensioned> {
    // What a geometry means.
    ghost geometry: { G → Geometry };

    // The items, in order.
    ghost items: { G → ItemList };

    // The size of an item's header.
    ghost ITEM_HEADER: { ℕ };

    const ITEM_HEADER: u8;

    /// The kind and the dimension that the header has.
    fn wkb_type(geom: &G) -> WkbType
        ensures { ListsItems (geometry geom.now) result (items geom.now) };

    /// The number of items after the count.
    fn count(geom: &G) -> u128
        ensures { result ≡ length (items geom.now).list };

    /// The size of a geometry without its header, where it is known without a look at each item.
    #[inline(always)]
    fn known_size(geom: &G) -> Option<usize>
        ensures size { IfSome result (λ n. n ≡ bytes_behind_header (geometry geom.now)) }
        ensures writable { IsOfWritable result (geometry geom.now) }
    {
        None
    }

    /// The fault of the item at an index, or its size without its header.
    fn measure_item(geom: &G, i: usize) -> Measured
        requires { i < length (items geom.now).list }
        ensures { MeasuresItem (items geom.now) i result };

    /// Puts the item at an index. The options go by reference, in one register.
    fn put_item<S: Sink>(
        out: &mut Buffered<'_, S>,
        geom: &G,
        i: usize,
        options: &WriteOptions,
    ) -> Put
        requires fault { fault (geometry geom.now) ≡ None }
        requires within { i < length (items geom.now).list }
        requires working { S.has_failed out.old.sink.now ≡ false }
        ensures { LaysItem S.Sink out.old out.new (items geom.now) i options.now result };

    // After its header a geometry is its items.
    ghost parts: { (g : G) → HasMeasures (geometry g) (G.dimensions g) ITEM_HEADER (items g) };

    // Every coordinate fits the dimension.
    ghost lawful: { (g : G) → IsGeometry (geometry g) };
}

/// The geometries of a kind of items. All are measured and put in one way: the count, and then the items.
pub struct Counted<I>(I);

#[tactic(auto, using(crate::proofs::Steps::counted_laws))]
impl<G: Dimensioned, I: Items<G>> Writable<G> for Counted<I> {
    ghost geometry = { λ g. I.geometry g };

    ghost lawful = { λ g. I.lawful g };

    #[inline(always)]
    fn measure(geom: &G) -> Measured {
        behind_header(geom.dim(), measure_items::<G, I>(geom))
    }

    // Not inlined, so that the recursion of collections, which calls it for each kind, stays small.
    #[inline(never)]
    fn put<S: Sink>(out: &mut Buffered<'_, S>, geom: &G, options: &WriteOptions) -> Put {
        let count = I::count(geom) as u32;
        let inner = options.inner();
        out.put_head(options, I::wkb_type(geom), count)?;
        for i in 0..count as usize {
            I::put_item(out, geom, i, &inner)?;
        }
        Ok(())
    }
}

/// Measures the count and the items, each with its header: by the size that is known, else one by one.
#[inline(always)]
pub fn measure_items<G: Dimensioned, I: Items<G>>(geom: &G) -> Measured
    ensures { IsMeasureOf (items_measure I.ITEM_HEADER (I.items geom.now)) result }
{
    match I::known_size(geom) {
        Some(size) => Measured::Bytes(size),
        None => measure_each::<G, I>(geom),
    }
}

/// Measures the count and the items in order, each with its header.
#[tactic(auto, using(crate::proofs::Sums::measured_laws))]
fn measure_each<G: Dimensioned, I: Items<G>>(geom: &G) -> Measured
    ensures { IsMeasureOf (items_measure I.ITEM_HEADER (I.items geom.now)) result }
{
    let Some(count) = count_to_write(I::count(geom)) else {
        return Measured::Count;
    };
    // In 128 bits no sum overflows, so that the compiler multiplies where all items have one size, as points have.
    let mut total = COUNT_SIZE as u128 + I::ITEM_HEADER as u128 * count as u128;
    for i in 0..count as usize {
        match I::measure_item(geom, i) {
            Measured::Bytes(size) => total += size as u128,
            fault => return fault,
        }
    }
    Measured::Bytes(total.min(usize::MAX as u128) as usize)
}
