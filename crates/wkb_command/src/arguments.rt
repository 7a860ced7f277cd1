//! The program's arguments as texts.

ghost use Rattle.std.specs.Prelude.{◌≡◌};
ghost use Rattle.wkb_command.specs.declared.arguments.ArgumentFailure.TheVariants.{Memory};

use std::alloc::{AllocError, Global};
use std::env::{Env, FillError};

/// How many bytes an argument may have at first.
const FIRST_SIZE: usize = 256;

/// Why an argument isn't a text in memory.
#[derive(Clone, Copy)]
pub enum ArgumentFailure {
    /// It isn't UTF-8.
    NoText,
    Memory,
}

impl From<AllocError> for ArgumentFailure {
    ghost from_gives = { λ error failure. failure ≡ Memory };

    fn from(_error: AllocError) -> ArgumentFailure {
        ArgumentFailure::Memory
    }
}

/// The arguments after the program's name. The name itself is not looked at, so it need not be a text.
pub fn read_arguments<E: Env>(alloc: Global, env: &E) -> Result<Vec<String>, ArgumentFailure> {
    let mut arguments = Vec::new(alloc);
    for i in 1..usize::MAX {
        let Some(argument) = argument_at(alloc, env, i)? else {
            return Ok(arguments);
        };
        if arguments.push(argument).is_err() {
            return Err(ArgumentFailure::Memory);
        }
    }
    Ok(arguments)
}

/// An argument by its place, and `None` past the last. The room for it is doubled until it fits.
fn argument_at<E: Env>(
    alloc: Global,
    env: &E,
    i: usize,
) -> Result<Option<String>, ArgumentFailure> {
    let mut size = FIRST_SIZE;
    for _ in 0..usize::BITS {
        let mut bytes = vec![in alloc; 0u8; size]?;
        match env.arg(i, bytes.as_mut_slice()) {
            Ok(len) => {
                bytes.truncate(len);
                return Ok(Some(text(bytes)?));
            }
            Err(FillError::NotPresent) => return Ok(None),
            Err(FillError::TooLong) => size = size.saturating_add(size),
        }
    }
    Err(ArgumentFailure::Memory)
}

fn text(bytes: Vec<u8>) -> Result<String, ArgumentFailure> {
    match String::from_utf8(bytes) {
        Ok(text) => Ok(text),
        Err(_) => Err(ArgumentFailure::NoText),
    }
}
