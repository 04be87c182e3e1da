//! The sizes and types of messages (RFC 4271 sections 4.1 to 4.5).

/// The most octets of a message (RFC 4271 section 4.1).
pub const MESSAGE_LIMIT: usize = 4096;

/// The octets of a header: Marker, Length, Type (section 4.1). A KEEPALIVE has no more (section 4.4).
pub const HEADER_LEN: usize = 19;

/// The least octets of an OPEN (section 4.2).
pub const LEAST_OPEN: usize = 29;

/// The least octets of an UPDATE (section 4.3).
pub const LEAST_UPDATE: usize = 23;

/// The least octets of a NOTIFICATION, which has no data then (section 4.5).
pub const LEAST_NOTIFICATION: usize = 21;

/// The most octets of a NOTIFICATION's data (section 4.5).
pub const MOST_DATA: usize = MESSAGE_LIMIT - LEAST_NOTIFICATION;

/// The version of the protocol (section 4.2).
pub const VERSION: u8 = 4;

/// The type of the optional parameter that holds capabilities (RFC 5492 section 4).
pub const CAPABILITIES: u8 = 2;

/// The code of the capability that gives the speaker's number in four octets (RFC 6793 section 3).
pub const FOUR_OCTET_ASN: u8 = 65;

/// The type of an OPEN (section 4.1).
pub const OPEN: u8 = 1;

/// The type of an UPDATE (section 4.1).
pub const UPDATE: u8 = 2;

/// The type of a NOTIFICATION (section 4.1).
pub const NOTIFICATION: u8 = 3;

/// The type of a KEEPALIVE (section 4.1).
pub const KEEPALIVE: u8 = 4;
