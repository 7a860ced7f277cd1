//! The traits that a caller's own geometries implement, in place of `geo-traits`; plain geometries
//! that borrow a caller's ordinates; and the number that the bits of an ordinate stand for.

ghost use Rattle.std.specs.Prelude.{◌≡◌, IfSome, is_some, not, to_bits, from_bits};
ghost use Rattle.std.specs.Float.{binary64, NotNan};
ghost use Rattle.wkb.specs.Prelude.{is_nan as nan};

mod geometry;
pub mod levels;

pub use geometry::{Geometry, GeometryCollection};
pub use wkb_geom::Dimensions;
pub use wkb_geom::geom::{
    CoordTrait, Dimensioned, GeometryCollectionTrait, GeometryTrait, GeometryType, LineStringTrait,
    LineTrait, MultiLineStringTrait, MultiPointTrait, MultiPolygonTrait, PointTrait, PolygonTrait,
    RectTrait, TriangleTrait,
};
pub use wkb_geom::words::is_at_most;
use wkb_geom::words::is_nan;
pub use wkb_plain::{
    Coord, Line, LineString, MultiLineString, MultiPoint, MultiPolygon, Point, Polygon, Rect,
    Triangle,
};

/// The number that a coordinate's word stands for; `None` for a NaN.
///
/// ```
/// // The x of a point, as a number.
/// let x = ordinate(coord.x());
/// ```
#[tactic(auto, using(crate::proofs::Ordinates::ordinate_laws))]
pub fn ordinate(word: u64) -> Option<f64>
    ensures some { is_some result ≡ not (nan word) }
    ensures number { IfSome result (λ number. number ≡ from_bits binary64 word) }
    ensures bits { IfSome result (λ number. to_bits binary64 number ≡ word) }
    ensures not_nan { IfSome result NotNan }
{
    if is_nan(word) {
        None
    } else {
        Some(f64::from_bits(word))
    }
}
