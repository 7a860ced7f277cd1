//! Clients: what a user of the library proves of their own code, from its public clauses and lemmas only.
#![tactic(auto)]

pub mod boxes;
pub mod clones;
pub mod collections;
pub mod columns;
pub mod coordinates;
pub mod features;
pub mod geopackage;
pub mod keys;
pub mod kinds;
pub mod members;
pub mod numbers;
pub mod own;
pub mod places;
pub mod shapes;
pub mod sites;
pub mod windows;
