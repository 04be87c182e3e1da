//! The engine of `bgpnet safe`: it reads a network, and says of each prefix whether there is a dispute wheel.
//!
//! The contract of `bgpnet safe` is that of [`text_engines::answer_input`] over a [`SafeEngine`]. For the prefix of each
//! origin, "safe" means that no feasible paths make a dispute wheel; rims that are printed are one; or the line says that a
//! router without a rule stood in the way. The definitions stand in `specs/`: `Listing` (the lines of a prefix) and
//! `Answers` (the text of a network and of an input).
//!
//! Where the prefixes of two origins one behind the other are alike ([`stable_engine::are_alike`]), the search is asked
//! once.
//!
//! Left out: the search, which is `wheel_search`'s; what safe means, which is `dispute_wheels`'.
#![tactic(auto)]

mod lines;
mod prefixes;
mod safe;

pub use safe::SafeEngine;
