//! An encoding at the start of a slice.

ghost use Rattle.std.specs.Prelude.{◌≡◌, ◌<◌, ◌^◌, None, IfOk, IfErr, length};
ghost use Rattle.wkb_write.specs.Prelude.{IsInFront, TellsFailure, WritesToSlice};

use crate::WriteOptions;
use crate::measure::refuse;
use crate::writable::{Writable, checked_size, lay_whole, length, sink_error};
use wkb_geom::WkbResult;

/// The encoding of a geometry of a kind at the start of a slice.
#[inline(always)]
pub fn slice_as<G, K: Writable<G>>(
    geom: &G,
    options: &WriteOptions,
    out: &mut [u8],
) -> WkbResult<usize>
    ensures { WritesToSlice options.now (K.geometry geom.now) out.old out.new result }
{
    let size = match checked_size::<G, K>(geom, options.form) {
        Ok(size) => size,
        Err(fault) => return refuse(fault),
    };
    if out.len() < size {
        return sink_error(None);
    }
    lay_whole::<G, K>(&mut out[..size], geom, options);
    Ok(size)
}

/// An encoding that is in memory, at the start of a slice.
#[inline(always)]
pub fn encoding_to_slice(bytes: &[u8], out: &mut [u8]) -> WkbResult<usize>
    ensures ok { IfOk result (IsInFront out.old out.new bytes.now) }
    ensures short { IfErr result (λ _. length out.old < length bytes.now) }
    ensures err { IfErr result (λ e. TellsFailure e None) }
    ensures kept { IfErr result (λ _. out.new ≡ out.old) }
    ensures fits { length bytes.now < 2 ^ 64 }
{
    let size = length(bytes);
    if out.len() < size {
        return sink_error(None);
    }
    out[..size].copy_from_slice(bytes);
    Ok(size)
}
