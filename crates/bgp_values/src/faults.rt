//! The error codes of a NOTIFICATION and their subcodes (RFC 4271 sections 4.5 and 6).

/// Message Header Error (RFC 4271 section 4.5): the error code of a header's faults.
pub const MESSAGE_HEADER_ERROR: u8 = 1;

/// OPEN Message Error (section 4.5): the error code of an OPEN's faults.
pub const OPEN_MESSAGE_ERROR: u8 = 2;

/// UPDATE Message Error (section 4.5): the error code of an UPDATE's faults.
pub const UPDATE_MESSAGE_ERROR: u8 = 3;

/// Hold Timer Expired (section 6.5): nothing came for the hold time. It has no subcodes.
pub const HOLD_TIMER_EXPIRED: u8 = 4;

/// Finite State Machine Error (section 6.6): a message or event that the state does not take.
pub const FSM_ERROR: u8 = 5;

/// Cease (section 6.7): the speaker closes the session of its own will. It has no subcodes here.
pub const CEASE: u8 = 6;

/// Unspecific (section 4.5): the subcode where no other is defined, or fits.
pub const UNSPECIFIC: u8 = 0;

// ---- The error subcodes of a header's faults (section 6.1).

/// Connection Not Synchronized (section 6.1): the Marker is not all ones.
pub const CONNECTION_NOT_SYNCHRONIZED: u8 = 1;

/// Bad Message Length (section 6.1): the length is below that of a header, above the most, or none that the type may
/// have.
pub const BAD_MESSAGE_LENGTH: u8 = 2;

/// Bad Message Type (section 6.1): a type that is not known.
pub const BAD_MESSAGE_TYPE: u8 = 3;

// ---- The error subcodes of an OPEN's faults (section 6.2).

/// Unsupported Version Number (section 6.2): a version other than [`VERSION`](crate::VERSION).
pub const UNSUPPORTED_VERSION_NUMBER: u8 = 1;

/// Bad Peer AS (section 6.2): the speaker is not the peer that was expected.
pub const BAD_PEER_AS: u8 = 2;

/// Bad BGP Identifier (section 6.2): the identifier is no address of a host.
pub const BAD_BGP_IDENTIFIER: u8 = 3;

/// Unsupported Optional Parameter (section 6.2): a parameter that does not hold capabilities.
pub const UNSUPPORTED_OPTIONAL_PARAMETER: u8 = 4;

/// Unacceptable Hold Time (section 6.2): one or two seconds.
pub const UNACCEPTABLE_HOLD_TIME: u8 = 6;

/// Unsupported Capability (RFC 5492 section 5): the OPEN lacks a capability that the reader requires.
pub const UNSUPPORTED_CAPABILITY: u8 = 7;

// ---- The error subcodes of an UPDATE's faults (section 6.3).

/// Malformed Attribute List (section 6.3): lengths do not fit, or an attribute stands twice.
pub const MALFORMED_ATTRIBUTE_LIST: u8 = 1;

/// Unrecognized Well-known Attribute (section 6.3): an unknown code that is not optional.
pub const UNRECOGNIZED_WELL_KNOWN_ATTRIBUTE: u8 = 2;

/// Missing Well-known Attribute (section 6.3): prefixes are announced without a mandatory attribute.
pub const MISSING_WELL_KNOWN_ATTRIBUTE: u8 = 3;

/// Attribute Flags Error (section 6.3): flags that the code may not have.
pub const ATTRIBUTE_FLAGS_ERROR: u8 = 4;

/// Attribute Length Error (section 6.3): a length that the code may not have.
pub const ATTRIBUTE_LENGTH_ERROR: u8 = 5;

/// Invalid ORIGIN Attribute (section 6.3): a value above [`INCOMPLETE`](crate::INCOMPLETE).
pub const INVALID_ORIGIN_ATTRIBUTE: u8 = 6;

/// Invalid NEXT_HOP Attribute (section 6.3): an address of no host.
pub const INVALID_NEXT_HOP_ATTRIBUTE: u8 = 8;

/// Invalid Network Field (section 6.3): a prefix is too long, or its octets are cut off.
pub const INVALID_NETWORK_FIELD: u8 = 10;

/// Malformed AS_PATH (section 6.3): segments that do not fit, or a path that does not begin with its speaker.
pub const MALFORMED_AS_PATH: u8 = 11;
