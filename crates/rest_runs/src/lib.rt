//! That a network without dispute wheels comes to rest (Griffin, Shepherd and Wilfong 2002).
//!
//! A network is left alone while no command is given and no second passes. From each state of a run only so many events
//! can follow then, in any order, if no prefix has a dispute wheel. So `play`'s rounds come to rest. At rest, with all
//! sessions up, the kept paths are a stable assignment, and without a dispute wheel the one.
//!
//! Left out: a number of events or rounds that comes near those that runs do.
#![tactic(auto)]

pub mod laws;
