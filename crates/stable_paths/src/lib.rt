//! Stable path assignments of a network, for one prefix (Griffin, Shepherd and Wilfong 2002).
//!
//! An [`Instance`] is a prefix of a network, an [`Assignment`] a path for each router. The one contract: [`check`]
//! answers that the assignment is stable exactly where each router has the best of its choices, given its peers' paths;
//! else the least router that has not, with its path and its best. [`movers`] lists all that have not.
//!
//! The definitions stand in `specs/`: `Stable` (choices, the best of them, stable assignments),
//! `Judging` (what a check answers).
//!
//! Left out: finding a stable assignment, and whether there is one.
#![tactic(auto)]

mod assignment;
mod choosing;
mod instance;
pub mod laws;
mod refusal;
mod stability;
mod verdict;

pub use assignment::{Assigned, Assignment};
pub use instance::Instance;
pub use refusal::StableError;
pub use stability::{check, may_have, movers};
pub use verdict::{Check, Mover};
