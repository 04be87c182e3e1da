//! The promises of every run of a network of routers, in which each router steps by itself and a take gets the next
//! item that the peer put.
//!
//! The promises are the contracts of public functions with empty bodies, about the definitions of `router_model` and of
//! runs (`specs/Runs`). A crate whose calls are steps of these routers has them by calling the functions.
//!
//! Left out: that anything arrives, ends or settles.
#![tactic(auto)]

mod journals;
pub mod laws;
mod mirrors;
mod snapshots;

pub use journals::{NetworkRouters, causal_orders_are_runs_of_routers};
pub use laws::{
    close_loses_the_recording, each_network_has_a_setting, nothing_is_acted_on_after_the_close,
    quiet_steps_are_acts, runs_keep, updates_pass_in_order, what_is_said_is_good,
};
pub use mirrors::runs_are_mirrored;
pub use snapshots::snapshots_of_runs;
