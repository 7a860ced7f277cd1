//! Bytes from the text of a case.

use std::io;
use std::io::Write;
use std::test::Fail;

/// As many bytes as the longest case has: a thousand collections, one in the other, round a point.
const CAPACITY: usize = 9021;

/// What `P` stands for: 1.0 and 2.0, little endian.
const ONE_AND_TWO: [u8; 16] = [0, 0, 0, 0, 0, 0, 0xf0, 0x3f, 0, 0, 0, 0, 0, 0, 0, 0x40];

/// The bytes of a case, or of what a call wrote. They allocate nothing, so that a test can have each allocation of the
/// call that it makes fail.
#[derive(Drop)]
pub struct Spelled {
    bytes: [u8; CAPACITY],
    len: usize,
}

impl Spelled {
    pub fn new() -> Spelled {
        Spelled {
            bytes: [0; CAPACITY],
            len: 0,
        }
    }

    pub fn as_slice(&self) -> &[u8] {
        match self.bytes.get(..self.len) {
            Some(spelled) => spelled,
            None => &[],
        }
    }

    pub fn len(&self) -> usize {
        self.len
    }

    pub fn extend_from_slice(&mut self, bytes: &[u8]) -> Result<(), Fail> {
        if self.append(bytes) {
            Ok(())
        } else {
            Err(Fail::new("a case of over 9021 bytes"))
        }
    }

    /// Appends bytes, and returns whether there was room for all of them.
    pub fn append(&mut self, bytes: &[u8]) -> bool {
        for byte in bytes {
            if self.len >= CAPACITY {
                return false;
            }
            self.bytes[self.len] = *byte;
            self.len += 1;
        }
        true
    }

    /// Appends the bytes that a text spells in hex. Spaces are for reading, and `P` stands for the sixteen
    /// bytes of 1.0 and 2.0, little endian.
    pub fn spell(&mut self, text: &str) -> Result<(), Fail> {
        let mut high = None;
        for character in text.as_bytes() {
            match *character {
                b' ' | b'\n' => {}
                b'P' => self.extend_from_slice(&ONE_AND_TWO)?,
                digit => match high {
                    None => high = Some(digit),
                    Some(first) => {
                        let mut byte = [0];
                        hex::decode_to_slice([first, digit].as_slice(), &mut byte)?;
                        self.extend_from_slice(&byte)?;
                        high = None;
                    }
                },
            }
        }
        match high {
            None => Ok(()),
            Some(_) => Err(Fail::new("an odd number of digits")),
        }
    }
}

impl Write for Spelled {
    fn write(&mut self, bytes: &[u8]) -> io::Result<usize> {
        if self.append(bytes) {
            Ok(bytes.len())
        } else {
            Err(io::Error::from(io::ErrorKind::WriteZero))
        }
    }

    fn flush(&mut self) -> io::Result<()> {
        Ok(())
    }
}

/// The bytes that a text spells.
pub fn bytes(text: &str) -> Result<Spelled, Fail> {
    let mut spelled = Spelled::new();
    spelled.spell(text)?;
    Ok(spelled)
}

/// The hex digits of bytes.
pub fn digits_of(bytes: &[u8]) -> Result<Spelled, Fail> {
    let mut digits = Spelled::new();
    for byte in bytes {
        let mut pair = [0; 2];
        hex::encode_to_slice([*byte], &mut pair)?;
        digits.extend_from_slice(&pair)?;
    }
    Ok(digits)
}
