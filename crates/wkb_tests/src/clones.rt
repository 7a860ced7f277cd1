//! Each clone. If a clone fails, its source is as before.

use crate::cases::{CASES, Case, case_at};
use std::alloc::{AllocError, Global};
use std::test::Fail;
use wkb::geom::{GeometryTrait, GeometryType};
use wkb::reader::Wkb;
use wkb_cases::reading::{read, view_size};

// Whether a geometry is that of the case.
fn is_case(wkb: &Wkb<'_>, case: &Case) -> bool {
    wkb.buf() == case.input.as_slice() && view_size(wkb) == case.input.len() as u64
}

// The bytes of a clone of the view, if that keeps a list.
fn view_cloned<'a>(wkb: &Wkb<'a>) -> Result<&'a [u8], AllocError> {
    match wkb.as_type() {
        GeometryType::Polygon(view) => Ok(view.clone()?.buf()),
        GeometryType::MultiLineString(view) => Ok(view.clone()?.buf()),
        GeometryType::MultiPolygon(view) => Ok(view.clone()?.buf()),
        _ => match wkb.as_geometry_collection() {
            Some(view) => Ok(Wkb::from(view.clone()?).buf()),
            None => Ok(&[]),
        },
    }
}

fn is_cloned(alloc: Global, case: &Case) -> Result<bool, Fail> {
    let wkb = read(alloc, case.input.as_slice())?;
    let whole = wkb.clone();
    let view = view_cloned(&wkb);
    if !is_case(&wkb, case) {
        return Ok(false);
    }
    Ok(is_case(&whole?, case) && view? == case.input.as_slice())
}

#[test]
fn each_view(rt: HostRuntime) -> Result<(), Fail> {
    for number in 0..CASES {
        assert!(rt; is_cloned(rt.alloc(), &case_at(number)?)?, "{number}");
    }
    Ok(())
}
