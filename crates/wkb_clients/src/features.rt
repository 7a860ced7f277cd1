//! A shape of a map of any type, and shapes together: geometries by `GeometryTrait` and `GeometryCollectionTrait`,
//! which are measured and written as what they mean. Types that no shape has are the plain geometries'.

ghost use Rattle.wkb.specs.Prelude.{Iso};
ghost use Rattle.wkb.specs.Prelude.traits.{Xy};
ghost use Rattle.wkb.specs.Writes.{IsSizeOf, IsEncodingOf};
ghost use Rattle.wkb_clients.specs.Features.{feature_meant, layer_members, layer_meant};
ghost use Rattle.wkb_clients.specs.LawfulFeatures.{feature_one_dimension, feature_lawful, layer_lawful};

use crate::shapes::{Area, Path, Region};
use std::alloc::Global;
use wkb::error::WkbResult;
use wkb::geom::{
    Dimensioned, Dimensions, GeometryCollectionTrait, GeometryTrait, GeometryType, Line,
    MultiLineString, MultiPoint, Rect, Triangle,
};
use wkb::writer::{VecSink, WriteOptions, geometry_wkb_size, to_vec, write_geometry_collection};
use wkb_cases::places::Place;

/// A shape of a map, or several.
#[derive(Clone, Copy)]
pub enum Feature<'m> {
    Place(Place),
    Path(Path<'m>),
    Area(Area<'m>),
    Region(Region<'m>),
    Together(&'m [Feature<'m>]),
}

/// The shapes of one map: a collection.
#[derive(Clone, Copy)]
pub struct Layer<'m> {
    pub features: &'m [Feature<'m>],
}

impl Dimensioned for Feature<'_> {
    ghost dimensions = { λ feature. Xy };

    fn dim(&self) -> Dimensions {
        Dimensions::Xy
    }
}

impl<'m> GeometryTrait for Feature<'m> {
    type PointType = Place;

    type LineStringType = Path<'m>;

    type PolygonType = Area<'m>;

    type MultiPointType = MultiPoint<'m>;

    type MultiLineStringType = MultiLineString<'m>;

    type MultiPolygonType = Region<'m>;

    type RectType = Rect<'m>;

    type TriangleType = Triangle<'m>;

    type LineType = Line<'m>;

    ghost geometry = { feature_meant };

    ghost one_dimension = { feature_one_dimension };

    ghost lawful = { feature_lawful };

    fn as_type(
        &self,
    ) -> GeometryType<
        '_,
        Place,
        Path<'m>,
        Area<'m>,
        MultiPoint<'m>,
        MultiLineString<'m>,
        Region<'m>,
        Feature<'m>,
        Rect<'m>,
        Triangle<'m>,
        Line<'m>,
    > {
        match self {
            Feature::Place(place) => GeometryType::Point(place),
            Feature::Path(path) => GeometryType::LineString(path),
            Feature::Area(area) => GeometryType::Polygon(area),
            Feature::Region(region) => GeometryType::MultiPolygon(region),
            Feature::Together(features) => GeometryType::GeometryCollection(features),
        }
    }
}

impl Dimensioned for Layer<'_> {
    ghost dimensions = { λ layer. Xy };

    fn dim(&self) -> Dimensions {
        Dimensions::Xy
    }
}

impl<'m> GeometryCollectionTrait for Layer<'m> {
    type GeometryType = Feature<'m>;

    ghost members = { layer_members };

    ghost lawful = { layer_lawful };

    fn geometries(&self) -> &[Feature<'m>] {
        self.features
    }

    fn num_geometries(&self) -> usize {
        self.features.len()
    }

    fn geometry(&self, i: usize) -> Option<&Feature<'m>> {
        self.features.get(i)
    }
}

/// The size of a feature's ISO encoding.
pub fn feature_size(feature: &Feature) -> WkbResult<usize>
    ensures { IsSizeOf Iso (feature_meant feature.now) result }
{
    geometry_wkb_size(feature)
}

/// The encoding of a feature.
pub fn feature_encoding(
    alloc: Global,
    feature: &Feature,
    options: &WriteOptions,
) -> WkbResult<Vec<u8>>
    ensures { IsEncodingOf options.now (feature_meant feature.now) result }
{
    to_vec(alloc, feature, options)
}

/// The encoding of a layer.
pub fn layer_encoding(alloc: Global, layer: &Layer, options: &WriteOptions) -> WkbResult<Vec<u8>>
    ensures { IsEncodingOf options.now (layer_meant layer.now) result }
{
    let mut sink = VecSink::new(alloc);
    match write_geometry_collection(&mut sink, layer, options) {
        Ok(()) => Ok(sink.into_vec()),
        Err(e) => Err(e),
    }
}
