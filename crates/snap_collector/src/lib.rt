//! How a snapshot comes out (Chandy and Lamport 1985): the verdict on what routers offer of it.
//!
//! Each router of a network offers, for the number of a snapshot, either the part that it recorded or that its
//! recording was lost. The first loss abandons the snapshot; without a loss, a part of every router decides it. It is
//! then moving at the first fault of the parts, routers rising: a part that is pending, a channel that is not empty, or
//! two parts that name different incarnations of one link. Without a fault it is settled.
//!
//! The one contract: [`verdict`] is that function of the offers, and [`decides`] tests whether they decide. The verdict
//! is how the snapshot comes out by the laws of network runs, for all offers made, late ones among them
//! ([`laws::verdicts_are_outcomes`]).
//!
//! A [`Collector`] keeps the offers by their numbers: [`Collector::offer`] takes one, or answers that
//! it comes late, [`Collector::outcome`] is the verdict on those kept, [`Collector::part`] what a
//! router recorded, [`Collector::in_flight`] the UPDATEs that were on their way as it was recorded.
//!
//! Left out: which offers a router makes.
#![tactic(auto)]

mod answer;
mod book;
mod collector;
mod flights;
pub mod laws;
mod members;
mod outcome;
mod part_index;
mod verdicts;

pub use answer::{CollectError, Taken};
pub use collector::Collector;
pub use flights::InFlight;
pub use members::{Member, is_member};
pub use outcome::{Outcome, Why};
pub use verdicts::{decides, has_offered, verdict};
