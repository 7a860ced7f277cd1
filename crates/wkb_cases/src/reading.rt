//! What reading the bytes of a case returns.

use std::alloc::Global;
use std::io;
use wkb::Endianness;
use wkb::canon::{canonical, canonical_with_srid, same};
use wkb::error::{General, WkbError, WkbResult};
use wkb::geom::{GeometryTrait, GeometryType};
use wkb::reader::{Wkb, read_wkb, read_wkb_counted};
use wkb::writer::WriteOptions;

/// How a reading ended.
#[derive(Clone, Copy, PartialEq)]
pub enum Outcome {
    /// Accepted, with the size that the view of the whole geometry returns.
    Accepted(u64),
    /// An `IOError` of the kind `UnexpectedEof`.
    EndOfInput,
    /// The `IncorrectType` of a multi geometry's member.
    WrongMember,
    Refused(General),
    TooDeep(usize),
    /// An allocation failed.
    Memory,
    /// Any other error.
    Other,
}

/// The size that the view of the whole geometry returns.
pub fn view_size(wkb: &Wkb<'_>) -> u64 {
    match wkb.as_type() {
        GeometryType::Point(view) => view.size(),
        GeometryType::LineString(view) => view.size(),
        GeometryType::Polygon(view) => view.size(),
        GeometryType::MultiPoint(view) => view.size(),
        GeometryType::MultiLineString(view) => view.size(),
        GeometryType::MultiPolygon(view) => view.size(),
        _ => match wkb.as_geometry_collection() {
            Some(collection) => collection.size(),
            None => 0,
        },
    }
}

fn outcome_of(answer: WkbResult<Wkb<'_>>) -> Outcome {
    match &answer {
        Ok(wkb) => Outcome::Accepted(view_size(wkb)),
        Err(error) => outcome_of_error(error),
    }
}

fn outcome_of_error(error: &WkbError) -> Outcome {
    match error {
        WkbError::IOError(fault) => match fault.kind() {
            io::ErrorKind::UnexpectedEof => Outcome::EndOfInput,
            _ => Outcome::Other,
        },
        WkbError::IncorrectType("multi geometry member") => Outcome::WrongMember,
        WkbError::General(fault) => Outcome::Refused(*fault),
        WkbError::NestingDepthExceeded(limit) => Outcome::TooDeep(*limit),
        WkbError::Memory(_) => Outcome::Memory,
        _ => Outcome::Other,
    }
}

/// `read_wkb` with no clauses, so that the proof of a test reads few facts.
pub fn read<'a>(alloc: Global, input: &'a [u8]) -> WkbResult<Wkb<'a>> {
    read_wkb(alloc, input)
}

/// How `read_wkb` ends for these bytes.
pub fn answer_to(alloc: Global, input: &[u8]) -> Outcome {
    outcome_of(read(alloc, input))
}

/// How `Wkb::try_new` ends for these bytes.
pub fn tried(alloc: Global, input: &[u8]) -> Outcome {
    outcome_of(Wkb::try_new(alloc, input))
}

/// How `read_wkb_counted` ends, with its turns and slots.
pub fn counts(alloc: Global, input: &[u8]) -> (Outcome, u128, u128) {
    let (answer, counts) = read_wkb_counted(alloc, input);
    (outcome_of(answer), counts.turns, counts.slots)
}

/// The canonical form under these options.
pub fn rewritten_as(alloc: Global, input: &[u8], options: &WriteOptions) -> WkbResult<Vec<u8>> {
    canonical(alloc, input, options)
}

/// The canonical form under EWKB with the input's own SRID.
pub fn with_own_srid(alloc: Global, input: &[u8], order: Endianness) -> WkbResult<Vec<u8>> {
    canonical_with_srid(alloc, input, order)
}

/// Whether two inputs have equal values.
pub fn are_same(alloc: Global, first: &[u8], second: &[u8]) -> WkbResult<bool> {
    same(alloc, first, second)
}
