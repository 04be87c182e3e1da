//! The laws of network runs, before any router stands on them.
//!
//! A pure model of routers that speak BGP-4 (RFC 4271) over links whose connections come and go. They record snapshots
//! by markers (Chandy and Lamport 1985), and choose routes by rank (Griffin, Shepherd and Wilfong 2002). The laws say
//! what holds in every run of the model. The definitions stand in `specs/`. Each law is a function with an empty body,
//! and is its one contract. The crate has no code that runs: a crate with code shows that each of its calls is a step
//! of this model, and then has the laws.
//!
//! The laws speak of any type of messages, prefixes and paths, and of any choice among paths. The network that each law
//! is given says what messages tell and how a router chooses.
//!
//! Left out: the session machine's timers, what the octets of a message mean, the limits of numbers and stamps; that
//! anything arrives, ends or settles.
#![tactic(auto)]

pub mod examples;
pub mod links;
pub mod network_links;
pub mod octets;
pub mod offers;
pub mod orders;
pub mod places;
pub mod quiet;
pub mod recordings;
pub mod routes;
pub mod sessions;
mod stamps;
pub mod steps;
pub mod streams;
pub mod wrong_twins;

pub use links::{
    end_facts_hold, entries_add_up, first_in_first_out, joined_heard_its_own, link_runs_go_on,
    moves_keep_end_facts,
};
pub use network_links::network_runs_are_link_runs;
pub use octets::{Framing, octets_are_entries, passing_appends};
pub use offers::{
    close_loses_the_recording, offer_runs_are_network_runs, one_offer_a_number, outcome_is_one,
    outcome_tells, settled_outcome_is_stable_and_stays,
};
pub use orders::{
    JournalLines, Routers, WholeLines, causal_orders_are_runs, causal_orders_end_alike,
    gathered_events_are_stamped, gathered_is_one, gathered_stamps_rise, gathering_lifts,
    journals_can_be_gathered, offers_stand, parts_are_as_long, puts_come_earlier,
    runs_are_causal_orders, runs_have_their_cuts, runs_pass_through_cuts, sorting_by_stamp_gathers,
    sorting_by_stamp_then_router_gathers, stamps_change_no_item, stamps_give_causal_orders,
    stamps_give_the_collectors_order, steps_are_takes_in_order, takes_have_their_puts,
    threads_are_a_run,
};
pub use places::{recorded_at_one_event, recordings_make_a_cut};
pub use quiet::{settled_stays, unfinished_snapshots_hold};
pub use recordings::consistent_cut;
pub use routes::{network_runs_go_on, settled_is_stable};
pub use sessions::{session_events_lead_on, sessions_are_link_runs};
pub use stamps::GREATEST_STAMP;
pub use steps::{copies_are_a_cut, link_ends_keep_enough, markers_are_obeyed, states_of_runs};
pub use streams::{no_octet_is_stale, octets_of_an_incarnation};
