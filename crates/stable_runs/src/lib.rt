//! The stable assignments of a network and the settled snapshots of its runs (Griffin, Shepherd and Wilfong 2002).
//!
//! Its one contract: in every run, the routes of a snapshot that is settled are, for each prefix that its
//! origin originates, one of the stable assignments that [`stable_search::stable_assignments`] answers.
//!
//! Left out: that a snapshot is ever settled, and in which of several stable assignments.
#![tactic(auto)]

pub mod laws;
