//! The flags and codes of path attributes, and the types of the segments of a path (RFC 4271 sections 4.3 and 5).

/// The flag Optional: a speaker need not recognise the attribute (RFC 4271 section 4.3).
pub const OPTIONAL: u8 = 0x80;

/// The flag Transitive: a speaker that does not recognise the attribute passes it on all the same.
pub const TRANSITIVE: u8 = 0x40;

/// The flag Partial: a speaker on the way did not recognise the attribute, and passed it on.
pub const PARTIAL: u8 = 0x20;

/// The flag Extended Length: the attribute's length has two octets.
pub const EXTENDED: u8 = 0x10;

/// The code of ORIGIN: where a prefix comes from (section 5.1.1).
pub const ORIGIN: u8 = 1;

/// The value of ORIGIN for a prefix of the autonomous system itself (section 4.3).
pub const IGP: u8 = 0;

/// The greatest value of ORIGIN, for a prefix that was learnt by some other means (section 4.3).
pub const INCOMPLETE: u8 = 2;

/// The code of AS_PATH: the autonomous systems that an UPDATE passed (section 5.1.2).
pub const AS_PATH: u8 = 2;

/// The code of NEXT_HOP: the address of the next router (section 5.1.3).
pub const NEXT_HOP: u8 = 3;

/// The code of MULTI_EXIT_DISC: which of several links a neighbour is told to prefer (section
/// 5.1.4).
pub const MULTI_EXIT_DISC: u8 = 4;

/// The code of LOCAL_PREF: what the speakers of one autonomous system prefer (section 5.1.5).
pub const LOCAL_PREF: u8 = 5;

/// The code of ATOMIC_AGGREGATE: an aggregate left out AS numbers (section 5.1.6).
pub const ATOMIC_AGGREGATE: u8 = 6;

/// The code of AGGREGATOR, the last of the known codes: who made an aggregate (section 5.1.7).
pub const AGGREGATOR: u8 = 7;

/// The type of a segment whose numbers are in no order (section 4.3).
pub const AS_SET: u8 = 1;

/// The type of a segment whose numbers are in order, the nearest first (section 4.3).
pub const AS_SEQUENCE: u8 = 2;
