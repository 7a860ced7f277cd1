//! The printed text of each error that no run of the program prints: the others are rows.

use std::alloc::{AllocError, Global};
use std::io;
use std::test::Fail;
use wkb::error::{General, Overflow, WkbError};

fn is_printed(alloc: Global, error: WkbError, text: &str) -> Result<bool, AllocError> {
    let printed = format!(in alloc; "{error}")?;
    Ok(printed.as_str() == text)
}

#[test]
fn printed_texts(rt: HostRuntime) -> Result<(), Fail> {
    for (error, text) in [
        (
            WkbError::General(General::UnsupportedDimensions(5)),
            "General error: Unsupported number of dimensions: 5",
        ),
        (
            WkbError::NotYetImplemented("curves"),
            "Not yet implemented: curves",
        ),
        (
            WkbError::IOError(io::Error::from(io::ErrorKind::UnexpectedEof)),
            "unexpected end of file",
        ),
        (
            WkbError::OverflowError(Overflow::Count),
            "count does not fit 32 bits",
        ),
        (
            WkbError::OverflowError(Overflow::Size),
            "size does not fit usize",
        ),
        (WkbError::Memory(AllocError), "out of memory"),
    ] {
        assert!(rt; is_printed(rt.alloc(), error, text)?, "{text}");
    }
    Ok(())
}
