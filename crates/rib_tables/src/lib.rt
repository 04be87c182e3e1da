//! The routing tables of one router (RFC 4271 section 3.2), in a network with policies.
//!
//! A [`Rib`] holds the words that peers told this router (Adj-RIBs-In), the paths that it keeps
//! (Loc-RIB) and the words that it told its peers (Adj-RIBs-Out). The word of a peer for a prefix is
//! what the last UPDATE that mentions the prefix says of it; within one UPDATE an announcement wins
//! over a withdrawal. A withdrawal, or no mention, is the empty path.
//!
//! The one contract: after the UPDATEs of a list, each prefix of the network has the word of its
//! last mention ([`laws::the_last_word_stays`]); [`Rib::best`] is the first permitted choice over
//! those words in the order of the router's policy; [`Rib::dirty`] and [`Rib::waiting`] are the
//! least prefix, by address and then by length, that is to be decided, or to be told.
//!
//! The definitions stand in `specs/`: `Words` (what an UPDATE says of a prefix), `Tables` (the word
//! of a peer, and what each call does to it), `Choices` (the best of the choices), `Least` (the
//! least prefix), `Promises` (what the laws say).
//!
//! A peer has a place, its index among the router's peers by rising number, and a prefix its index in
//! `Network::origins`. The calls `.._at` take a place that was found once; others look for it.
//!
//! Only [`Rib::new`], [`Rib::hear`], [`Rib::hear_at`], [`Rib::hear_path_at`], [`Rib::tell_at`], [`Rib::best`] and
//! [`Rib::decide`] take memory. Left out: sessions, attributes other than AS_PATH, and prefixes that the network does
//! not name.
#![tactic(auto)]

mod changes;
pub mod laws;
mod line;
mod opening;
mod place_set;
mod rib;
mod row;
mod word;

pub use line::Line;
pub use place_set::PlaceSet;
pub use rib::Rib;
pub use row::{Peer, Row};
pub use word::Word;
