//! Byte orders, dimensions and the two written forms.

ghost use Rattle.std.specs.Prelude.{◌≡◌, ◌*◌};
ghost use Rattle.wkb_geom.specs.Codes.{thousands, dimension_of_thousands};
ghost use Rattle.wkb_geom.specs.Dimensions.{size, width, has_z, has_m, as_dimensions};
ghost use Rattle.wkb_geom.specs.Meanings.{HasOrder, IsNamed};
ghost use Rattle.wkb_geom.specs.Numbers.{order_byte};
ghost use Rattle.wkb_geom.specs.Reading.{order_of_byte};
ghost use Rattle.wkb_geom.specs.Encodings.{inner};
ghost use Rattle.wkb_geom.specs.declared.words.TheConstants.{WORD_SIZE};

use crate::error::{General, WkbError};
use crate::words::WORD_SIZE;

/// The order of the bytes of a number.
#[derive(Debug, Clone, Copy, Default, PartialEq)]
pub enum Endianness {
    /// The highest byte first.
    BigEndian,
    /// The lowest byte first.
    #[default]
    LittleEndian,
}

impl Endianness {
    /// The byte order that a geometry's first byte stands for, if any.
    #[inline]
    pub fn of_byte(byte: u8) -> Option<Endianness>
        ensures { result ≡ order_of_byte byte }
    {
        match byte {
            0 => Some(Endianness::BigEndian),
            1 => Some(Endianness::LittleEndian),
            _ => None,
        }
    }

    /// The first byte of a geometry in this order: 0 for big endian, 1 for little endian.
    pub fn byte(self) -> u8
        ensures { result ≡ order_byte self }
    {
        match self {
            Endianness::BigEndian => 0,
            Endianness::LittleEndian => 1,
        }
    }
}

/// A call in which the order is a constant, for which it is compiled: once for each order.
#[macro_export]
macro_rules! by_order {
    ($order:ident, $call:expr) => {
        match $order {
            $crate::Endianness::BigEndian => {
                let $order = $crate::Endianness::BigEndian;
                $call
            }
            $crate::Endianness::LittleEndian => {
                let $order = $crate::Endianness::LittleEndian;
                $call
            }
        }
    };
}

/// The dimension of a geometry that was read.
#[derive(Clone, Copy, Debug, PartialEq)]
pub enum Dimension {
    /// x and y.
    Xy,
    /// x, y and z.
    Xyz,
    /// x, y and m.
    Xym,
    /// x, y, z and m.
    Xyzm,
}

impl Dimension {
    /// The dimension of these thousands of an ISO code, if any.
    pub fn of_thousands(thousands: u32) -> Option<Dimension>
        ensures { result ≡ dimension_of_thousands thousands }
    {
        match thousands {
            0 => Some(Dimension::Xy),
            1 => Some(Dimension::Xyz),
            2 => Some(Dimension::Xym),
            3 => Some(Dimension::Xyzm),
            _ => None,
        }
    }

    /// The thousands of an ISO code.
    pub fn thousands(self) -> u32
        ensures { result ≡ thousands self }
    {
        match self {
            Dimension::Xy => 0,
            Dimension::Xyz => 1,
            Dimension::Xym => 2,
            Dimension::Xyzm => 3,
        }
    }

    /// The number of words in a coordinate.
    pub fn width(self) -> usize
        ensures { result ≡ width self }
    {
        match self {
            Dimension::Xy => 2,
            Dimension::Xyz | Dimension::Xym => 3,
            Dimension::Xyzm => 4,
        }
    }

    /// The size of a coordinate.
    #[inline]
    pub fn coordinate_size(self) -> usize
        ensures { result ≡ WORD_SIZE * width self }
    {
        WORD_SIZE * self.width()
    }

    /// Whether there is a z.
    pub fn has_z(self) -> bool
        ensures { result ≡ has_z self }
    {
        match self {
            Dimension::Xyz | Dimension::Xyzm => true,
            Dimension::Xy | Dimension::Xym => false,
        }
    }

    /// Whether there is an m.
    pub fn has_m(self) -> bool
        ensures { result ≡ has_m self }
    {
        match self {
            Dimension::Xym | Dimension::Xyzm => true,
            Dimension::Xy | Dimension::Xyz => false,
        }
    }
}

/// The dimension of a geometry, as the geometry traits name it.
#[derive(Clone, Copy, Debug, PartialEq)]
pub enum Dimensions {
    /// x and y.
    Xy,
    /// x, y and z.
    Xyz,
    /// x, y and m.
    Xym,
    /// x, y, z and m.
    Xyzm,
    /// This many words in each coordinate.
    Unknown(usize),
}

impl Dimensions {
    /// The number of words in a coordinate.
    pub fn size(&self) -> usize
        ensures { result ≡ size self.now }
    {
        match self {
            Dimensions::Xy => 2,
            Dimensions::Xyz | Dimensions::Xym => 3,
            Dimensions::Xyzm => 4,
            Dimensions::Unknown(n) => *n,
        }
    }
}

/// The codes that are written.
#[derive(Debug, Clone, Copy, Default, PartialEq)]
pub enum Form {
    /// ISO codes, no SRID.
    #[default]
    Iso,
    /// EWKB flags, with this SRID on the outermost geometry.
    Ewkb {
        /// The SRID, if any.
        srid: Option<u32>,
    },
}

impl Form {
    /// The form of a geometry's members: only the outermost geometry has an SRID.
    pub fn inner(self) -> Form
        ensures { result ≡ inner self }
    {
        match self {
            Form::Iso => Form::Iso,
            Form::Ewkb { srid: _ } => Form::Ewkb { srid: None },
        }
    }
}

/// The byte order that a geometry's first byte stands for.
impl TryFrom<u8> for Endianness {
    type Error = WkbError;

    ghost try_from_gives = { HasOrder };

    fn try_from(byte: u8) -> Result<Endianness, WkbError> {
        match Endianness::of_byte(byte) {
            Some(order) => Ok(order),
            None => Err(WkbError::General(General::InvalidByteOrder)),
        }
    }
}

impl From<Endianness> for u8 {
    ghost from_gives = { λ order n. n ≡ order_byte order };

    fn from(order: Endianness) -> u8 {
        order.byte()
    }
}

/// The dimension that is written of a geometry of these.
impl TryFrom<Dimensions> for Dimension {
    type Error = WkbError;

    ghost try_from_gives = { IsNamed };

    fn try_from(dimensions: Dimensions) -> Result<Dimension, WkbError> {
        match dimensions {
            Dimensions::Xy | Dimensions::Unknown(2) => Ok(Dimension::Xy),
            Dimensions::Xyz | Dimensions::Unknown(3) => Ok(Dimension::Xyz),
            Dimensions::Xym => Ok(Dimension::Xym),
            Dimensions::Xyzm | Dimensions::Unknown(4) => Ok(Dimension::Xyzm),
            Dimensions::Unknown(n) => Err(WkbError::General(General::UnsupportedDimensions(n))),
        }
    }
}

/// A dimension that was read, as the geometry traits name it.
impl From<Dimension> for Dimensions {
    ghost from_gives = { λ d result. result ≡ as_dimensions d };

    fn from(dimension: Dimension) -> Dimensions {
        match dimension {
            Dimension::Xy => Dimensions::Xy,
            Dimension::Xyz => Dimensions::Xyz,
            Dimension::Xym => Dimensions::Xym,
            Dimension::Xyzm => Dimensions::Xyzm,
        }
    }
}
