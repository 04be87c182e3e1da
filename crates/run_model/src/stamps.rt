//! The limit of the stamps of events (Lamport 1978).

/// The greatest stamp of an event. One more is still far below what 64 bits hold.
pub const GREATEST_STAMP: u64 = 0x4000_0000_0000_0000;
