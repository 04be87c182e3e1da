//! The limits of a router.

/// The limit of an outbox, in octets that wait to be put: a peer whose outbox has reached it is told no more UPDATEs.
pub const OUTBOX_LIMIT: usize = 65_536;
