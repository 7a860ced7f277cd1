//! Each kind's size and encoding, and a point in each sink. A short encoding is one write of `Out`, and a `VecSink` that
//! has room for it does not allocate.

use crate::kinds::{ENCODINGS, Kind, put_kind, put_point};
use crate::sinks::LimitedWriter;
use std::alloc::Global;
use std::test::Fail;
use wkb::Endianness;
use wkb::geom::Dimensions;
use wkb::writer::{Out, SliceSink, VecSink};
use wkb_cases::spelled::{Spelled, bytes};
use wkb_cases::support::{ONE, TWO, iso, point_of};

// Whether a vector with room for the encoding holds it, and has grown no more.
fn is_put_in_a_vec(alloc: Global, kind: Kind, encoding: &Spelled) -> Result<bool, Fail> {
    let empty = VecSink::with_capacity(alloc, encoding.len())?.into_vec();
    let mut sink = VecSink::with_capacity(alloc, encoding.len())?;
    let size = put_kind(alloc, &mut sink, kind)?;
    let taken = sink.into_vec();
    Ok(
        size == encoding.len()
            && taken.as_slice() == encoding.as_slice()
            && taken.capacity() == empty.capacity(),
    )
}

fn is_one_write(alloc: Global, kind: Kind, encoding: &Spelled) -> Result<bool, Fail> {
    let mut out = Out::new(LimitedWriter::new(usize::MAX, None));
    let size = put_kind(alloc, &mut out, kind)?;
    let writer = out.into_inner();
    Ok(
        size == encoding.len()
            && writer.writes == 1
            && writer.taken.as_slice() == encoding.as_slice(),
    )
}

// Also the case line-triangle, and of rect-sizes the triangle and the line.
#[test]
fn each_kind(rt: HostRuntime) -> Result<(), Fail> {
    for (kind, text) in ENCODINGS {
        let encoding = bytes(text)?;
        assert!(rt;
            is_put_in_a_vec(rt.alloc(), kind, &encoding)?
                && is_one_write(rt.alloc(), kind, &encoding)?,
            "{text}"
        );
    }
    Ok(())
}

/// A point of 1.0 and 2.0, big endian.
const POINT: &str = "00000000013ff00000000000004000000000000000";

#[test]
fn point_in_each_sink(rt: HostRuntime) -> Result<(), Fail> {
    let point = point_of(Dimensions::Xy, &[ONE, TWO])?;
    let expected = bytes(POINT)?;
    let mut out = Out::new(Spelled::new());
    put_point(&mut out, &point, &iso(Endianness::BigEndian))?;
    assert!(rt; out.into_inner().as_slice() == expected.as_slice());
    let mut slice = [0u8; 21];
    let mut sink = SliceSink::new(&mut slice);
    put_point(&mut sink, &point, &iso(Endianness::BigEndian))?;
    assert!(rt; sink.written() == expected.as_slice());
    assert!(rt; slice.as_slice() == expected.as_slice());
    Ok(())
}
