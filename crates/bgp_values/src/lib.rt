//! The values that the standard fixes, each in one place: codes and subcodes of faults, sizes and types of
//! messages, flags and codes of path attributes, and the ranges of what a speaker says of itself (RFC 4271).
//!
//! Bodies, definitions and clauses of the crates above take them from here. Its contract: each range is tested as
//! `specs/Ranges` defines it, and each number is the literal that `specs/Numbers` has beside its section.
#![tactic(auto)]

mod attributes;
mod faults;
pub mod laws;
mod messages;
mod ranges;
mod width;

pub use attributes::{
    AGGREGATOR, AS_PATH, AS_SEQUENCE, AS_SET, ATOMIC_AGGREGATE, EXTENDED, IGP, INCOMPLETE,
    LOCAL_PREF, MULTI_EXIT_DISC, NEXT_HOP, OPTIONAL, ORIGIN, PARTIAL, TRANSITIVE,
};
pub use faults::{
    ATTRIBUTE_FLAGS_ERROR, ATTRIBUTE_LENGTH_ERROR, BAD_BGP_IDENTIFIER, BAD_MESSAGE_LENGTH,
    BAD_MESSAGE_TYPE, BAD_PEER_AS, CEASE, CONNECTION_NOT_SYNCHRONIZED, FSM_ERROR,
    HOLD_TIMER_EXPIRED, INVALID_NETWORK_FIELD, INVALID_NEXT_HOP_ATTRIBUTE,
    INVALID_ORIGIN_ATTRIBUTE, MALFORMED_AS_PATH, MALFORMED_ATTRIBUTE_LIST, MESSAGE_HEADER_ERROR,
    MISSING_WELL_KNOWN_ATTRIBUTE, OPEN_MESSAGE_ERROR, UNACCEPTABLE_HOLD_TIME,
    UNRECOGNIZED_WELL_KNOWN_ATTRIBUTE, UNSPECIFIC, UNSUPPORTED_CAPABILITY,
    UNSUPPORTED_OPTIONAL_PARAMETER, UNSUPPORTED_VERSION_NUMBER, UPDATE_MESSAGE_ERROR,
};
pub use messages::{
    CAPABILITIES, FOUR_OCTET_ASN, HEADER_LEN, KEEPALIVE, LEAST_NOTIFICATION, LEAST_OPEN,
    LEAST_UPDATE, MESSAGE_LIMIT, MOST_DATA, NOTIFICATION, OPEN, UPDATE, VERSION,
};
pub use ranges::{FIRST_UNICAST, LAST_UNICAST, LEAST_HOLD, is_asn, is_hold_time, is_unicast};
pub use width::{AS_TRANS, Asn, GREATEST_OF_FOUR, GREATEST_OF_TWO, Width, greatest_asn};
