//! One worker of a network: a router, and what it does at its gate's word.
//!
//! The worker is generic over the gate that gives its chores, the pipes to its peers, and the desk at which it makes
//! offers. Its one contract: if it ends without a fault, its journal has the chores that its gate gave, and the events
//! that follow from them, each with its stamp ([`Worker::work`]).
//!
//! Left out: threads, and how long a call waits.
#![tactic(auto)]

mod chore;
mod journal;
pub mod laws;
mod script;
mod traits;
mod worker;

pub use chore::Chore;
pub use journal::{Journal, WorkerEvent};
pub use script::ScriptGate;
pub use traits::{Between, Desk, Gate, Pipes};
pub use worker::{Worker, WorkerFault};
