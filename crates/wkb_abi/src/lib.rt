//! What crosses to C, and what its calls share: statuses and refusals, options, the table of parts, the rows of a
//! column and their levels. No call allocates.
#![tactic(auto)]

pub mod column;
pub mod fault;
pub mod found;
pub mod layouts;
pub mod level_column;
pub mod level_slices;
pub mod numbers;
pub mod options;
pub mod parts;
pub mod status;
pub mod totals;
