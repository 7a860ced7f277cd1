//! Derived comparisons, defaults and conversions of the types that calls take and return. What they are is proved of
//! the functions here, so that only the hashes are left to run.

ghost use Rattle.std.specs.Prelude.{◌≡◌, ◌↔◌, Ok, Err, IsTrue};
ghost use Rattle.wkb_geom.specs.declared.common.Endianness.TheVariants.{LittleEndian};
ghost use Rattle.wkb_geom.specs.declared.common.Form.TheVariants.{Iso};
ghost use Rattle.wkb_geom.specs.declared.error.WkbError.TheVariants.{IOError};

use std::hash::{DefaultHasher, Hash, Hasher};
use std::io;
use wkb::reader::{Counts, GeometryType};
use wkb_command::calls::Cost;
use wkb_geom::code::WkbType;
use wkb_geom::words::is_nan;
use wkb_geom::{Dimension, Dimensions, EMPTY_WORD, Endianness, Form, General, Overflow, WkbResult};

// A dimension that was made a caller's dimension is named again.
fn back(dimension: Dimension) -> WkbResult<Dimension>
    ensures { result ≡ Ok dimension }
{
    let named = Dimension::try_from(Dimensions::from(dimension))?;
    Ok(named)
}

// A fault of a file is passed on as it is.
fn passed_on(answer: io::Result<u8>) -> WkbResult<u8>
    ensures { (e : _) → answer ≡ Err e → result ≡ Err (IOError e) }
{
    let byte = answer?;
    Ok(byte)
}

// The default order.
fn default_order() -> Endianness
    ensures { result ≡ LittleEndian }
{
    Endianness::default()
}

// The default form.
fn default_form() -> Form
    ensures { result ≡ Iso }
{
    Form::default()
}

// The word that is written for an empty point's ordinates is a NaN.
fn empty_word_is_nan() -> bool
    ensures { IsTrue result }
{
    is_nan(EMPTY_WORD)
}

// The derived comparisons are those of the values.
fn is_order(a: Endianness, b: Endianness) -> bool
    ensures { IsTrue result ↔ (a ≡ b) }
{
    a == b
}

fn is_dimension(a: Dimension, b: Dimension) -> bool
    ensures { IsTrue result ↔ (a ≡ b) }
{
    a == b
}

fn are_dimensions(a: Dimensions, b: Dimensions) -> bool
    ensures { IsTrue result ↔ (a ≡ b) }
{
    a == b
}

fn is_form(a: Form, b: Form) -> bool
    ensures { IsTrue result ↔ (a ≡ b) }
{
    a == b
}

fn is_type(a: WkbType, b: WkbType) -> bool
    ensures { IsTrue result ↔ (a ≡ b) }
{
    a == b
}

fn is_fault(a: General, b: General) -> bool
    ensures { IsTrue result ↔ (a ≡ b) }
{
    a == b
}

fn is_overflow(a: Overflow, b: Overflow) -> bool
    ensures { IsTrue result ↔ (a ≡ b) }
{
    a == b
}

fn is_kind(a: GeometryType, b: GeometryType) -> bool
    ensures { IsTrue result ↔ (a ≡ b) }
{
    a == b
}

// Two counts are compared as their values are.
fn are_counts(a: Counts, b: Counts) -> bool
    ensures { IsTrue result ↔ (a ≡ b) }
{
    a == b
}

// Two costs are compared as their values are.
fn is_cost(a: Cost, b: Cost) -> bool
    ensures { IsTrue result ↔ (a ≡ b) }
{
    a == b
}

fn hash_of(kind: GeometryType) -> u64 {
    let mut hasher = DefaultHasher::new();
    kind.hash(&mut hasher);
    hasher.finish()
}

/// The kinds that are read.
const KINDS: [GeometryType; 7] = [
    GeometryType::Point,
    GeometryType::LineString,
    GeometryType::Polygon,
    GeometryType::MultiPoint,
    GeometryType::MultiLineString,
    GeometryType::MultiPolygon,
    GeometryType::GeometryCollection,
];

// Equal kinds hash alike; of these seven, no two others do.
#[test]
fn kinds_compared(rt: HostRuntime) {
    for (i, a) in KINDS.iter().enumerate() {
        for (j, b) in KINDS.iter().enumerate() {
            let are_alike = hash_of(*a) == hash_of(*b);
            assert!(rt;
                is_kind(*a, *b) == (i == j) && are_alike == (i == j),
                "{i} {j}"
            );
        }
    }
}
