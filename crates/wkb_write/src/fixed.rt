//! Kinds of a fixed size: the dimensions alone tell how long an encoding is, and it is laid at once.

ghost use Rattle.std.specs.Prelude.{◌≡◌, ◌+◌, ◌≤◌, None, length};
ghost use Rattle.wkb_geom.specs.Dimensions.{width, written_dimension};
ghost use Rattle.wkb_geom.specs.declared.header.TheConstants.{MAX_HEADER_SIZE};
ghost use Rattle.wkb_sink.specs.Blocks.{LaysAt};
ghost use Rattle.wkb_write.specs.Prelude.{Geometry, IsGeometry, encoding_of, fault};
ghost use Rattle.wkb_write.specs.Prelude.{HasFaultlessBody, HasWords, MIN_BLOCK, size_by_parts};
ghost use Rattle.wkb_write.specs.Prelude.{whole_size_by_parts};

use crate::common::*;
use crate::measure::words_to_measure;
use wkb_geom::Dimension;

/// A kind whose geometries have one size for each dimension.
pub trait Fixed<G: Dimensioned> {
    // What a geometry means.
    ghost geometry: { G → Geometry };

    /// The size without the header, by the number of words of a coordinate.
    fn size(words: usize) -> usize
        requires { words ≤ 4 }
        ensures size { (g : G) → HasWords (G.dimensions g) words →
            result ≡ size_by_parts (geometry g) }
        ensures most { MAX_HEADER_SIZE + result ≤ MIN_BLOCK };

    /// Lays a geometry that has no fault, by the dimension that its header tells.
    fn lay(bytes: &mut [u8], at: usize, geom: &G, dim: Dimension, options: &WriteOptions) -> usize
        requires fault { fault (geometry geom.now) ≡ None }
        requires dimension { dim ≡ written_dimension (G.dimensions geom.now) }
        requires words { HasWords (G.dimensions geom.now) (width dim) }
        requires room { at + whole_size_by_parts options.now.form (geometry geom.now) ≤
            length bytes.old }
        ensures end { result ≡ at + whole_size_by_parts options.now.form (geometry geom.now) }
        ensures bytes { LaysAt at result bytes.old bytes.new
            (encoding_of options.now (geometry geom.now)) };

    // Only the dimensions can have a fault.
    ghost body: { (g : G) → HasFaultlessBody (geometry g) (G.dimensions g) };

    // Every coordinate fits the dimension.
    ghost lawful: { (g : G) → IsGeometry (geometry g) };
}

/// The geometries of a kind of a fixed size.
pub struct AtOnce<F>(F);

#[tactic(auto, using(crate::proofs::Steps::step_laws, crate::proofs::Supported::width_laws))]
impl<G: Dimensioned, F: Fixed<G>> Writable<G> for AtOnce<F> {
    ghost geometry = { λ g. F.geometry g };

    ghost lawful = { λ g. F.lawful g };

    #[inline(always)]
    fn measure(geom: &G) -> Measured {
        let dim = geom.dim();
        behind_header(dim, Measured::Bytes(F::size(words_to_measure(dim))))
    }

    #[inline(always)]
    fn put<S: Sink>(out: &mut Buffered<'_, S>, geom: &G, options: &WriteOptions) -> Put {
        let dim = supported_dimension(geom.dim());
        out.make_room(length_of_header(options.form) + F::size(dim.width()))?;
        out.len = F::lay(out.bytes, out.len, geom, dim, options);
        Ok(())
    }
}
