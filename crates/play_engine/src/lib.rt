//! The engines of `bgpnet play`, `bgpnet cut` and `bgpnet why`: they read a network and a schedule, have a world of
//! routers obey the orders, and write what is shown of it: how the snapshots came out and the routes that the schedule
//! leads to, or the cut of a snapshot, or what a router knows.
//!
//! Each is a value of [`Shown`]: `bgpnet play` is [`Shown::Report`], `bgpnet cut` is [`Shown::Cut`], `bgpnet why` is
//! [`Shown::Why`]. The contract of each is that of [`text_engines::answer_input`] over it: what is written is the text
//! of what was read. The definitions stand in `specs/`: `Playing` (the text of a schedule), `Reporting` (that of routes
//! and snapshots) and `Cutting` (that of a cut); what is said of a router is `why_engine`'s. The lines themselves are
//! `net_text`'s and `schedule_text`'s. No thread is started here.
#![tactic(auto)]

mod cuts;
pub mod laws;
mod schedules;
mod snapshots;
mod stream;

pub use stream::Shown;
