//! A collection, whose members are of another type than the collection.

ghost use Rattle.std.specs.Prelude.{◌≡◌, false};
ghost use Rattle.wkb_write.specs.Prelude.{Iso, collection_meant, IsSizeOf, WritesTo};

use crate::common::*;
use crate::geometry::GeometryKind;
use crate::nested::{add_members, put_members};
use wkb_geom::GeometryCollectionTrait;

/// A collection, whose members are of another type.
pub struct GeometryCollectionKind;

#[tactic(auto, using(crate::proofs::Collections::added_alone))]
impl<C: GeometryCollectionTrait> Writable<C> for GeometryCollectionKind {
    ghost geometry = { collection_meant C.GeometryCollectionTrait };

    ghost lawful = { λ c. C.lawful c };

    #[inline(always)]
    fn measure(geom: &C) -> Measured {
        add_members::<C::GeometryType, GeometryKind>(0, geom.dim(), geom.geometries())
    }

    fn put<S: Sink>(out: &mut Buffered<'_, S>, geom: &C, options: &WriteOptions) -> Put {
        let members = geom.geometries();
        put_members::<S, C::GeometryType, GeometryKind>(out, geom.dim(), members, options)
    }
}

/// The size of a GeometryCollection in ISO codes.
pub fn geometry_collection_wkb_size<C: GeometryCollectionTrait>(geom: &C) -> WkbResult<usize>
    ensures size { IsSizeOf Iso (collection_meant C.GeometryCollectionTrait geom.now) result }
{
    size_as::<C, GeometryCollectionKind>(geom, Form::Iso)
}

/// Writes a GeometryCollection.
pub fn write_geometry_collection<S: Sink, C: GeometryCollectionTrait>(
    writer: &mut S,
    geom: &C,
    options: &WriteOptions,
) -> WkbResult<()>
    requires working { S.has_failed writer.old ≡ false }
    ensures { WritesTo S.Sink writer.old writer.new options.now
        (collection_meant C.GeometryCollectionTrait geom.now) result }
{
    write_as::<S, C, GeometryCollectionKind>(writer, geom, options)
}
