//! What one router records of a snapshot (Chandy and Lamport 1985), and what it offers of it.
//!
//! A router that records keeps its own state at once, and the UPDATEs of each peer's channel until that peer's marker
//! comes. A whole recording is offered as a part; one that a close or a greater number ends is offered as lost.
//!
//! Left out: which markers a router heeds, when it sends its own, and what a collector makes of the offers.
#![tactic(auto)]

mod copying;
mod links;
mod mark_state;
mod part;

pub use mark_state::MarkState;
pub use part::{Cause, Channel, KeptPath, Lost, Offer, Part};
