//! A one-way pipe between two workers: a bounded queue, one end that puts and one end that takes.
//!
//! The queue is `crossbeam_queue`'s array queue under a rule: what was put is what was taken, followed by what the
//! queue holds. Each end has a seat at the queue, and knows the items that it has put, or taken, itself. What one end
//! knows reaches the other only as both come together in [`close`]. It is then known that the items put are those
//! taken, followed by those left.
//!
//! The one contract: an item that an end takes is one that the other end put, in the order of the
//! puts, each once, unchanged; a pipe loses nothing.
//!
//! The calls but [`with_ends`] may wait for the other thread's call to end, and promise what they do only if they
//! return. It is not promised that a put which is refused met a full queue, or that a take without an item met an empty
//! one. Nothing is promised of time.
#![tactic(auto)]

mod ends;
pub mod laws;
mod log;
mod refusal;
mod rule;
mod tail;

pub use ends::{MOST_ITEMS, PutEnd, TakeEnd, with_ends};
pub use refusal::PipeError;
pub use tail::{Tail, close};
