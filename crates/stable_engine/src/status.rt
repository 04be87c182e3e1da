//! The status of an answer that is not whole.

/// A limit was met: for some prefix it is not said which assignments are stable.
pub const UNKNOWN: u8 = 5;
