//! A network of routers whose events one schedule names, in one order: a world, and what it plays.
//!
//! Its contract: a [`World`] does each event as `specs/World` says, or nothing, or refuses it and stays as it was
//! ([`World::step`]); an order is a list of events ([`World::obey`]), which a watcher may look at
//! ([`World::obey_watched`], [`Watch`]). What a world played is a run of the routers of `router_model`, with the promises
//! of runs (`specs/Views`: `KeepsPromises`; [`laws`]). [`through_cut`] makes the run through the cut of a snapshot.
//! Routers that rest and links that are idle are passed over (`specs/IdleTurns`).
//!
//! Left out: texts of schedules and reports, by `schedule_text`; routers in threads, by `net_workers`.
#![tactic(auto)]

mod counts;
pub mod examples;
mod flags;
mod idle_turns;
mod inbox;
pub mod laws;
mod logged_calls;
mod obeying;
mod opening;
mod player;
mod reordering;
mod schedule;
mod state;
mod through;
mod watch;
mod world;

pub use opening::new_router;
pub use player::play;
pub use schedule::{Event, Order, PlayFault, StepFault};
pub use through::{Through, count_inside, through_cut};
pub use watch::Watch;
pub use world::World;
