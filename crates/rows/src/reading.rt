//! How reading ends, and what a geometry is.

use crate::line::Line;
use std::alloc::Global;
use wkb::error::WkbError;
use wkb::geom::{GeometryTrait, GeometryType, PolygonTrait};
use wkb::reader::Wkb;
use wkb::writer::geometry_wkb_size;
use wkb_cases::reading::{Outcome, answer_to, are_same, counts, read, tried, view_size};
use wkb_check::{Refused, Summary, check};
use wkb_geom::Cause;

/// Shows an error; a general one by its fault alone.
pub fn show_error(line: &mut Line, error: &WkbError) {
    match error {
        WkbError::General(fault) => line.show("", *fault),
        other => line.show("", other),
    }
}

/// Shows how a reading ended.
fn show_outcome(line: &mut Line, outcome: Outcome) {
    match outcome {
        Outcome::Accepted(size) => line.show("accepted, size ", size),
        Outcome::EndOfInput => line.say("IOError"),
        Outcome::WrongMember => line.say("IncorrectType"),
        Outcome::Refused(fault) => line.show("", fault),
        Outcome::TooDeep(limit) => {
            line.show("NestingDepthExceeded(", limit);
            line.say(")");
        }
        Outcome::Memory => line.say("Memory"),
        Outcome::Other => line.say("another error"),
    }
}

/// Shows how another call ended, if it ended otherwise than the first one.
fn show_other(line: &mut Line, label: &str, first: Outcome, other: Outcome) {
    if other != first {
        line.say(label);
        show_outcome(line, other);
    }
}

/// How a check ended, in the terms of a reading.
fn outcome_of(answer: &Result<Summary, Refused>) -> Outcome {
    match answer {
        Ok(found) => Outcome::Accepted(found.bytes as u64),
        Err(refused) => match refused.cause {
            Cause::EndOfInput => Outcome::EndOfInput,
            Cause::General(fault) => Outcome::Refused(fault),
            Cause::IncorrectType => Outcome::WrongMember,
            Cause::NestingDepthExceeded(limit) => Outcome::TooDeep(limit),
        },
    }
}

/// Shows what a check returns, aside from how it ended.
fn show_check(line: &mut Line, answer: &Result<Summary, Refused>) {
    match answer {
        Ok(found) => {
            line.show("parts ", found.parts);
            line.show(", coordinates ", found.coordinates);
            line.show(", ", found.wkb_type);
            line.show(", srid ", found.srid);
        }
        Err(refused) => {
            line.show("part ", refused.part);
            line.show(", offset ", refused.offset);
        }
    }
}

/// Shows how `read_wkb_counted` ends, what it counts, and what the check without memory returns. `read_wkb`,
/// `Wkb::try_new` and the check are shown besides where they end otherwise.
pub fn show_reading(line: &mut Line, alloc: Global, input: &[u8]) {
    let (outcome, turns, slots) = counts(alloc, input);
    let checked = check(input);
    show_outcome(line, outcome);
    line.show(", turns ", turns);
    line.show(", slots ", slots);
    line.say("; ");
    show_check(line, &checked);
    show_other(line, ", but by read_wkb ", outcome, answer_to(alloc, input));
    show_other(line, ", but by Wkb::try_new ", outcome, tried(alloc, input));
    show_other(line, ", but by the check ", outcome, outcome_of(&checked));
}

/// Shows kind, dimension and SRID of a geometry, and how many bytes it borrows and its view has.
pub fn show_geometry(line: &mut Line, wkb: &Wkb<'_>) {
    line.show("", wkb.geometry_type());
    line.show(" ", wkb.dimension());
    line.show(", srid ", wkb.srid());
    line.show(", bytes ", wkb.buf().len());
    line.show(", size ", view_size(wkb));
}

/// Shows how many parts and coordinates a geometry has, and of a polygon its rings and their coordinates.
pub fn show_counts(line: &mut Line, wkb: &Wkb<'_>) {
    line.show("parts ", wkb.num_parts());
    line.show(", coordinates ", wkb.num_coords());
    if let GeometryType::Polygon(polygon) = wkb.as_type() {
        line.show(", rings ", polygon.num_rings());
        line.show(" with ", polygon.num_coords());
    }
}

/// Shows how many bytes a geometry is written to in ISO codes, and what its views tell of that.
pub fn show_sizes(line: &mut Line, wkb: &Wkb<'_>) {
    match geometry_wkb_size(wkb) {
        Ok(size) => line.show("", size),
        Err(error) => show_error(line, &error),
    }
    line.show(", told ", wkb.byte_size());
    if let GeometryType::Polygon(polygon) = wkb.as_type() {
        line.show(", rings ", polygon.rings_size());
    }
}

/// Shows the bytes that the geometry at the start of some bytes borrows. If they are read otherwise, it shows how.
pub fn show_front(line: &mut Line, alloc: Global, input: &[u8]) {
    let front = match read(alloc, input) {
        Ok(wkb) => wkb.buf(),
        Err(error) => return show_error(line, &error),
    };
    line.show_bytes("", front);
    match read(alloc, front) {
        Ok(again) if again.buf() == front => {}
        Ok(again) => line.show_bytes(", but again ", again.buf()),
        Err(error) => line.show(", but again ", &error),
    }
    match are_same(alloc, input, front) {
        Ok(true) => {}
        other => line.show(", but the same ", other),
    }
}

/// Shows whether two inputs have equal values.
pub fn show_same(line: &mut Line, alloc: Global, first: &[u8], second: &[u8]) {
    match are_same(alloc, first, second) {
        Ok(equal) => line.show("", equal),
        Err(error) => show_error(line, &error),
    }
}
