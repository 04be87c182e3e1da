//! The engine of `bgpnet stable`: it reads a network, and writes all of its stable assignments.
//!
//! The contract of `bgpnet stable` is that of [`text_engines::answer_input`] over a [`StableEngine`]. For the prefix of
//! each origin, in a stable assignment each router of a `route` line has its path, the routers of each dispute have one
//! of its choices, and a router of a `follow` line has one of its paths; to any choices of the disputes belongs exactly
//! one stable assignment. Or the line says which limit was met. The definitions stand in `specs/`: `Listing` (the lines
//! of a prefix), `Answers` (the text of a network and of an input) and `Alike` (prefixes with one answer).
//!
//! Where the prefixes of two origins one behind the other are alike ([`are_alike`]), the search is asked once.
//!
//! Left out: the search, which is `stable_search`'s; dispute wheels.
#![tactic(auto)]

mod alike;
pub mod laws;
mod lines;
mod parts;
mod prefixes;
mod stable;
pub mod status;

pub use alike::are_alike;
pub use lines::put_unknown_line;
pub use stable::{StableEngine, network_part};
