//! Sizes and writers of Well-Known Binary (OGC 06-103r4, section 8.2; under EWKB as PostGIS writes
//! it), one of each for every kind of geometry.
//!
//! A writer tests the whole geometry first, and rejects what the size under the same options
//! rejects, by the same error. Every size rejects as `geometry_wkb_size`, and every writer rejects
//! and fails as `write_geometry`, where the docs of one don't say otherwise.
//!
//! A file for each kind says what it means, how it is measured and put, and has its size and its writer. What they
//! share: `writable` (the trait of kinds, and the way from it to a writer), `fixed` (the kinds that are laid at
//! once), `items` (the kinds of items after a count, and their two loops), `nested` (the recursion of collections,
//! and the trait of what it knows of a geometry), `measure`, `checked` (a measured geometry as bytes for a sink), and
//! `slice` (an encoding at the start of a slice).
#![tactic(auto)]

mod checked;
mod common;
mod fixed;
mod geometry;
mod geometry_collection;
mod items;
mod line;
mod line_string;
mod measure;
mod multi_line_string;
mod multi_point;
mod multi_polygon;
mod nested;
mod point;
mod polygon;
mod polygons;
mod rect;
mod slice;
mod triangle;
mod writable;

pub use geometry::{
    geometry_wkb_size, geometry_wkb_size_with, to_vec, write_geometry, write_to_slice,
};
pub use geometry_collection::{geometry_collection_wkb_size, write_geometry_collection};
pub use line::{line_wkb_size, write_line};
pub use line_string::{line_string_wkb_size, write_line_string};
pub use multi_line_string::{multi_line_string_wkb_size, write_multi_line_string};
pub use multi_point::{multi_point_wkb_size, write_multi_point};
pub use multi_polygon::{multi_polygon_wkb_size, write_multi_polygon};
pub use point::{point_wkb_size, write_point};
pub use polygon::{polygon_wkb_size, write_polygon};
pub use polygons::{MadePolygons, made_polygons_wkb_size_with, write_made_polygons_to_slice};
pub use rect::{rect_wkb_size, write_rect};
pub use triangle::{triangle_wkb_size, write_triangle};
pub use wkb_sink::{LayWhole, MAX_IN_PLACE, Out, Sink, SliceSink, VecSink, WriteOptions};
