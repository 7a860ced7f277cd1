//! What a call returns. The numbers have classes, with room in each for later versions: from 1 on what a call couldn't
//! do, from 16 on what is wrong with a row, from 32 on why the input is rejected, from 48 on that it ends too early.

/// The call did what it promises.
pub const OK: u32 = 0;

/// An allocation failed.
pub const NO_MEMORY: u32 = 1;

/// A slice to write to is too short; the size, the count or the ends tell what is needed.
pub const NO_ROOM: u32 = 2;

/// The options name no order or no form.
pub const UNKNOWN_OPTION: u32 = 3;

/// There are more rows than the four bytes of a count hold.
pub const TOO_MANY_ROWS: u32 = 4;

/// The validity bit of a row is 0.
pub const NULL_ROW: u32 = 16;

/// The offsets of a row decrease, pass the end of the data, or begin before an earlier row ends.
pub const BAD_OFFSETS: u32 = 17;

/// The levels of a row don't fit its kind or each other.
pub const BAD_LEVELS: u32 = 18;

/// The input ends inside a header or before a count.
pub const SHORT_HEADER: u32 = 32;

/// An order byte is neither 0 nor 1.
pub const INVALID_BYTE_ORDER: u32 = 33;

/// The geometry type code is unknown.
pub const CODE_OUT_OF_RANGE: u32 = 34;

/// A member has another kind or dimension than its multi geometry takes, or a point of a multi point has an SRID.
pub const INCORRECT_TYPE: u32 = 35;

/// A collection is inside 128 others.
pub const NESTING_DEPTH_EXCEEDED: u32 = 36;

/// The input ends before the coordinates of a point do.
pub const SHORT_POINT: u32 = 48;

/// The input ends before the coordinates of a line string do.
pub const SHORT_LINE_STRING: u32 = 49;

/// The input ends before the points of a multi point do.
pub const SHORT_MULTI_POINT: u32 = 50;

/// The input ends before the coordinates of a ring do.
pub const SHORT_LINEAR_RING: u32 = 51;
