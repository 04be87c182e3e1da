//! The statuses that the program ends with.

/// All was read and is sound.
pub const DONE: u8 = 0;

/// The input has a fault or is cut short, and the text says which.
pub const REFUSED: u8 = 1;

/// The words are none that the program knows, and the text says how to use it.
pub const USAGE: u8 = 2;

/// Memory was refused, and the text is `memory`.
pub const MEMORY: u8 = 3;

/// A read or a write failed, and nothing more is written.
pub const STOPPED: u8 = 4;
