//! The program under any name.

use std::env::{Env, FillError};
use std::test::Fail;
use wkb_command::arguments::{ArgumentFailure, read_arguments};

/// Arguments, and whether those after the name are texts.
const ARGUMENTS: [([&[u8]; 3], bool); 3] = [
    ([b"\xff/", b"le", b"be"], true),
    ([b"wkb_hex", b"le", &[b'x'; 1000]], true),
    ([b"wkb_hex", b"le", b"\xff"], false),
];

/// A process whose arguments are these, the program's name first.
#[derive(Drop)]
struct Process<'a> {
    arguments: [&'a [u8]; 3],
}

impl Env for Process<'_> {
    fn arg(&self, i: usize, buf: &mut [u8]) -> Result<usize, FillError> {
        if i >= 3 {
            return Err(FillError::NotPresent);
        }
        let argument = self.arguments[i];
        if argument.len() > buf.len() {
            return Err(FillError::TooLong);
        }
        buf[..argument.len()].copy_from_slice(argument);
        Ok(argument.len())
    }

    fn var(&self, _name: &str, _buf: &mut [u8]) -> Result<usize, FillError> {
        Err(FillError::NotPresent)
    }

    fn var_at(&self, _i: usize, _buf: &mut [u8]) -> Result<usize, FillError> {
        Err(FillError::NotPresent)
    }
}

/// Whether the words are those after the name.
fn are_arguments(words: &[String], arguments: [&[u8]; 3]) -> bool {
    match words {
        [first, second] => first.as_bytes() == arguments[1] && second.as_bytes() == arguments[2],
        _ => false,
    }
}

// The case program-name: the name need not be a text; the words after it have to be, and may be of any length.
#[test]
fn arguments(rt: HostRuntime) -> Result<(), Fail> {
    for (arguments, are_texts) in ARGUMENTS {
        match read_arguments(rt.alloc(), &Process { arguments }) {
            Ok(words) => assert!(rt; are_texts && are_arguments(words.as_slice(), arguments)),
            Err(ArgumentFailure::NoText) => assert!(rt; !are_texts),
            Err(ArgumentFailure::Memory) => return Err(Fail::new("out of memory")),
        }
    }
    Ok(())
}
