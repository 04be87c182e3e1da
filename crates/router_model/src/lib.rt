//! One router: its state as plain data, its steps, and what each call of it answers.
//!
//! A router has a side towards each peer: its session (RFC 4271 section 8), its end of the link, what waits to be put
//! and what waits to be handled, and the UPDATEs that it acted on and sent. It keeps a path for each prefix, and
//! records snapshots. `specs/Step` says where each event may come and what it leaves. `specs/Calls` says what each call
//! answers: a step, nothing to do, or a refusal. Each law of these definitions for one router is the contract of a
//! public function of this crate, without parameters and with an empty body.
//!
//! No code of a router stands here: an edit of code leaves the laws as they were checked, and an edit of a definition
//! is paid once, below both.
//!
//! Left out: what several routers do together, and the type of a router that runs.
#![tactic(auto)]

mod command;
pub mod examples;
pub mod laws;
mod limits;
mod refusal;

pub use command::Command;
pub use limits::OUTBOX_LIMIT;
pub use refusal::{RouterError, Stepped};
