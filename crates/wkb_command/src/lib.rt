//! What the program `wkb_hex` does: its argument is a command, its input is hex lines.
#![tactic(auto)]

pub mod arguments;
pub mod calls;
pub mod program;
mod transfer;
