//! A network in threads as the program has it run, and what it prints of that: the engines of `bgpnet run` and `bgpnet
//! record`. Each router starts its sessions, originates its prefixes, and goes on in turns; the least router takes the
//! snapshots.
//!
//! [`run_network`] runs a network so for [`RunOptions`], at the word of a [`RunGate`] for each router. The contract of
//! `run` is that of [`run::network_output`]: the routes of the first snapshot that is settled with every origin
//! originating, behind which it takes no more ([`Until`]), or `unsettled`; [`run::settled_output`] makes that text of a
//! collector. The contract of `record` is that
//! of [`record::network_output`]: what the threads did, as a network and a schedule for `bgpnet play`, and behind it,
//! as comments, what they ended in; [`record::record_output`] makes that text of a record, and [`laws`] says that `play`
//! leads where the threads ended, and prints what the comments say. `command_line::run_thread_task` reads the network
//! and writes the text. The definitions stand in `specs/`: `Gates` (the scripts of routers), `Records` (of threads),
//! `Running` (what `run` prints), `Recording` (what `record` prints) and `Laws`. The lines themselves are `net_text`'s
//! and `schedule_text`'s.
#![tactic(auto)]

mod chores;
mod gates;
pub mod laws;
mod network;
pub mod record;
pub mod run;

pub use chores::RunOptions;
pub use gates::{RunGate, Until};
pub use network::run_network;
