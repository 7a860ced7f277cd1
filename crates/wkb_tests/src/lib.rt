//! What can't be a row of the worked cases, as tests of public calls: printed texts, sinks, what allocates, and the
//! arguments of the program. The bytes and numbers that they expect were written down before the program ran. Tests that
//! need no proof are in rust/cases.
//!
//! The inputs of the calls that allocate are made without an allocation, so that only those of the call under test can
//! fail, each in turn: `checks/memory/run wkb_tests` does that. A test in which an allocation failed ends with that
//! error and no other, and one in which none did passes.
#![tactic(auto)]

#[cfg(test)]
mod answers;
#[cfg(test)]
mod calls;
#[cfg(test)]
mod cases;
#[cfg(test)]
mod clones;
#[cfg(test)]
mod each_kind;
mod equality;
#[cfg(test)]
mod failures;
#[cfg(test)]
pub mod kinds;
#[cfg(test)]
mod printed;
#[cfg(test)]
mod program;
#[cfg(test)]
mod reading;
#[cfg(test)]
pub mod sinks;
#[cfg(test)]
mod without_memory;
