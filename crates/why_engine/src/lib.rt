//! What a router knows, and why it keeps what it keeps: the lines of `bgpnet why`.
//!
//! Its one contract is that of [`why_output`]. The text printed of a router of a world has its sessions, the words that
//! its peers said last and how it judges each, the paths that it keeps, and which peers it told. There is one text for
//! each world ([`laws::each_router_has_one_text`]). The definitions stand in `specs/`: `Explaining` (the text), `Laws`
//! (what the law says).
//!
//! Left out: the reading of inputs and the playing of schedules, which are `play_engine`'s.
#![tactic(auto)]

pub mod laws;
mod lines;
mod prefixes;
mod sessions;
mod why;
mod words;

pub use why::why_output;
