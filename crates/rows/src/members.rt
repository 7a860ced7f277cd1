//! The bytes that the members of a geometry borrow.

use crate::line::Line;
use wkb::geom::{
    GeometryTrait, GeometryType, MultiLineStringTrait, MultiPointTrait, MultiPolygonTrait,
};
use wkb::reader::Wkb;

/// The bytes that a collection's member borrows; for a point those of its view.
fn borrowed<'a>(member: &Wkb<'a>) -> &'a [u8] {
    match member.as_type() {
        GeometryType::Point(point) => point.buf(),
        _ => member.buf(),
    }
}

/// The bytes of a member, if there is one.
fn member_bytes<'a>(wkb: &Wkb<'a>, i: usize) -> Option<&'a [u8]> {
    match wkb.as_type() {
        GeometryType::MultiPoint(multi) => Some(multi.point(i)?.buf()),
        GeometryType::MultiLineString(multi) => Some(multi.line_string(i)?.buf()),
        GeometryType::MultiPolygon(multi) => Some(multi.polygon(i)?.buf()),
        GeometryType::GeometryCollection(members) => Some(borrowed(members.get(i)?)),
        _ => None,
    }
}

/// Shows the bytes of each member, and None past the last.
pub fn show_members(line: &mut Line, wkb: &Wkb<'_>) {
    for i in 0..usize::MAX {
        match member_bytes(wkb, i) {
            Some(bytes) => line.show_bytes(" ", bytes),
            None => return line.say(" None"),
        }
    }
}
