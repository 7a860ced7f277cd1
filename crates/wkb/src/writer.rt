//! The writers, the sizes of what they write, and the sinks that they write into.

pub use wkb_geom::Form;
pub use wkb_write::{
    LayWhole, MAX_IN_PLACE, Out, Sink, SliceSink, VecSink, WriteOptions,
    geometry_collection_wkb_size, geometry_wkb_size, geometry_wkb_size_with, line_string_wkb_size,
    line_wkb_size, multi_line_string_wkb_size, multi_point_wkb_size, multi_polygon_wkb_size,
    point_wkb_size, polygon_wkb_size, rect_wkb_size, to_vec, triangle_wkb_size, write_geometry,
    write_geometry_collection, write_line, write_line_string, write_multi_line_string,
    write_multi_point, write_multi_polygon, write_point, write_polygon, write_rect, write_to_slice,
    write_triangle,
};
