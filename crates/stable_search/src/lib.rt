//! All stable path assignments of a network, for one prefix (Griffin, Shepherd and Wilfong 2002).
//!
//! [`stable_assignments`] answers parts of the routers, each with its choices. The one contract: a stable assignment
//! has one of the choices of each part, and to any choices of the parts that don't follow belongs exactly one. If a part
//! has no choice, no assignment is stable; if each part has one, some assignment is. Their number is the product of the
//! numbers of choices of the parts that don't follow.
//!
//! The search is for values under relations of two: a router's path and its peer's path fit each other, or do not.
//! Values that nothing fits are removed. Routers that do not bear on each other any more fall into parts. In a part the
//! values of one router are tried in turn. Then the values that no choice has are removed, and the routers fall into
//! parts anew: a router that has the same path in all choices of its part is a part by itself. Where a part has more
//! choices than the limit, each value is tried until a choice has it, and what is left is parted before it is counted.
//!
//! Routers follow together if no other one cares which of their values they have, and if, whatever values the others
//! have, there is exactly one way to give them values that fit. It is seen value by value: each of them has exactly one
//! value that fits, whatever its peers have; and where it has which one, its peers outside tell, with those values of its
//! peers inside that are told already. So a mesh of routers without a rule follows what is decided before it. Each of
//! them is a part by itself, and is left out where the others are searched and counted.
//!
//! A router without a rule may permit more paths than can be listed. Before the search, routers are fixed outwards from
//! the origin: a router whose best path over a fixed peer is better than any that another peer could bring has that
//! path in every stable assignment. A network without rules is answered by that alone. The paths of the other routers
//! without a rule are found by rounds, the shorter first. Each round finds the paths along those of so many routers
//! that their peers may have, but none that falls behind the path along the only path of a peer, and none that is too
//! long: a router whose rule lists a path that a fixed peer offers has one no longer than its rule lists, and a router
//! without a rule beside a peer that surely has a path has one of at most one router more. A router for which 64 or more
//! are found, the empty one among them, is refused.
//!
//! The definitions stand in `specs/`: `Fits` (what fits, and that stable is fitting), `Every` (what is
//! answered), `Refusals` (what a refusal says), `Counting` (how many there are), `Choosers` and `Fixing`
//! (routers that have one path in every stable assignment), `Reaching` (how long paths may be), `Listing` (what the
//! others without a rule may have), `Picks`, `Seats`, `Groups`, `Parting`,
//! `Following` and `Led` (what the functions inside say).
//!
//! Left out: routers without a rule for which so many paths are found; texts.
#![tactic(auto)]

mod chooser;
mod distance;
mod every;
mod fixing;
mod following;
mod group;
mod keeping;
pub mod laws;
mod limits;
mod listing;
mod narrowing;
mod parting;
mod picking;
mod reach;
mod refusal;
mod relating;
mod sampling;
mod searching;
mod seat;
mod stable;
mod stop;
mod way;

pub use every::{Component, Every};
pub use limits::SearchLimits;
pub use refusal::SearchError;
pub use stable::stable_assignments;
