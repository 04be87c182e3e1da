//! How often routers change their paths in every run (Griffin, Shepherd and Wilfong 2002).
//!
//! In every run, of worlds and of threads, a router changes the path that it keeps for a prefix no more often than a
//! bound, which is found from the network, from the commands and from the sessions of the run. A prefix has a bound
//! exactly where it has no dispute wheel.
//!
//! Left out: when the last change comes, and that a network comes to rest.
#![tactic(auto)]

pub mod laws;
