//! BGP-4 messages as values, their octets, and their faults (RFC 4271 sections 4 and 6).
//!
//! Its contract: [`decode`] answers a message only where its octets are a spelling of it (section 4), and a fault
//! exactly where the octets have one: the first failing check in the order of checking (section 6). [`update_parts`]
//! reads an UPDATE as [`decode`] does, and answers its parts where its octets have them. [`encode`] appends the one
//! spelling that is written. What is written is read again as the same message.
//!
//! The definitions stand in `specs/`: `Header` (the header and its checks), `Spelling` (how each message is spelt, and
//! the one spelling that is written), `Opens` (the body of an OPEN), `AsNumbers` (AS numbers of either width),
//! `Updates` (the body of an UPDATE, as it is spelt and written), `AttrTable` (the attributes that are known),
//! `UpdateReading` (what reading an UPDATE answers), `Gathering` (attributes as they come, before they are put in
//! order), `Reading` (what a reader answers), `Faults` (the first fault of a frame), `Judging` (what a search for that
//! fault remembers, and what it answers where there is none), `Parts` (the parts of an UPDATE where its octets have
//! them). The laws that tie them together are the public functions of [`laws`].
//!
//! Numbers of autonomous systems have two octets in messages, or four (RFC 6793): a [`Rule`] says which. Left out:
//! framing (which octets are one message), sessions, and every use of a message.
#![tactic(auto)]

mod attr_fitting;
mod attr_reading;
mod attr_writing;
mod attributes;
mod copying;
mod fault;
mod head;
mod items;
mod judging;
mod kind;
pub mod laws;
mod message;
mod notice;
mod numbers;
mod octets;
mod open;
mod ordering;
mod parts;
mod path;
mod prefixes;
mod reading;
mod rule;
mod update;
mod writing;

pub use attributes::{Aggregator, Attrs, Raw};
pub use fault::{CodecError, Fault};
pub use head::header;
pub use items::Items;
pub use kind::Header;
pub use message::{Message, is_writable};
pub use notice::{Notice, notice_of};
pub use numbers::asn_size;
pub use octets::Octets;
pub use open::{Cap, Open};
pub use parts::{NumberOctets, PathOctets, PrefixOctets, UpdateParts};
pub use path::{Numbers, Segment, SegmentKind, put_numbers, read_numbers};
pub use prefixes::octet_count;
pub use reading::{decode, update_parts};
pub use rule::{Asn, NOBODY, Rule};
pub use update::Update;
pub use writing::{encode, put_message, written_len};
