//! A network in threads: each router with a worker in a thread of its own, pipes between them, and one
//! board for their offers.
//!
//! Its one contract: if [`run_journals`] answers, the threads' events, put into one order by their stamps, are a run of
//! the network's routers, and the routers, pipes and offers that it answers are those of its last state.
//! [`Journals::gather`] puts them into that order; [`run_net`] does both.
//!
//! Left out: that a thread gets on, that two of them run at once, and when anything arrives.
#![tactic(auto)]

mod board_seat;
mod dealing;
mod gathering;
pub mod laws;
mod lookout;
mod net;
mod record;
mod running;
mod sleepers;
mod worker_pipes;

pub use board_seat::{Board, BoardSeat};
pub use net::{journals_of, run_journals, run_net};
pub use offer_board::Made;
pub use record::{Journals, Limits, MOST_TURNS, Record, RunFault, Worked, WorkerRecord};
pub use running::Finished;
pub use sleepers::Sleepers;
pub use worker_loop::{Between, Chore, Gate, ScriptGate, WorkerEvent};
pub use worker_pipes::{PipePair, WorkerPipes};
