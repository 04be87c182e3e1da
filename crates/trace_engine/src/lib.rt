//! The engine of `bgpnet trace`: it reads a network and a schedule, has a world of routers obey the orders, and writes
//! the run as a schedule: the network's lines, then each event that was done as an order, with comments of what it did.
//!
//! The contract of `bgpnet trace` is that of [`text_engines::answer_input`] over a [`TraceEngine`]: what was read fixes
//! what is written, to the octet, but for the comments behind an event. The definitions stand in `specs/`: `Tracing`
//! (the text of events and orders) and `Tracings` (that of an input). No thread is started here.
#![tactic(auto)]

mod comments;
pub mod laws;
mod lines;
mod notes;
mod noting;
mod orders;
mod stream;
mod tracer;

pub use stream::TraceEngine;
