//! Dispute wheels of a network for a prefix (Griffin, Shepherd and Wilfong 2002, section 4), without code.
//!
//! The paths that can ever come are feasible: each router on the path permits its rest, and links lead along it. A
//! dispute wheel is a circle of feasible paths, of which each router has one, likes another better, and that one goes on
//! by the path of the next. [`laws`] says what it means that there is none: one assignment is stable, whichever links are
//! up, and in every run of the model of runs a router changes its path only so often.
//!
//! The definitions stand in `specs/`: `Wheels` (wheels over any paths and any order of them), `Feasible` (those of a
//! network), `Tests` (the same as functions that compute), `Answers` (each has the best of what its peers have), `Fewer`
//! (networks with fewer links and paths), `Counting` and `RunChanges` (how often something changes along a run), and in
//! `Promises`, `RunLaws` and `Examples` what the laws say.
//!
//! Left out: how a wheel is found; runs of the routers of `router_model`.
#![tactic(auto)]

pub mod laws;
