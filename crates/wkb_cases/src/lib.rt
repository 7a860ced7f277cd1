//! What the tests of the worked cases share: bytes from the text of a case, and what the public calls of
//! `wkb` return for them.
#![tactic(auto)]

pub mod columns;
pub mod example;
pub mod ordinates;
pub mod places;
pub mod reading;
pub mod spelled;
pub mod support;
pub mod texts;
pub mod with_srid;
