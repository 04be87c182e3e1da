//! Networks of BGP routers and their policies: which paths a router may use for a prefix, and which
//! it prefers (Griffin, Shepherd and Wilfong 2002).
//!
//! A [`Path`] is a list of AS numbers, the nearest router first and the origin last. A [`Policy`] says of a path
//! whether it is permitted and of two which is preferred; its law is that the permitted paths stand in one strict total
//! order. A [`NetBuilder`] takes a network line by line, refuses what is wrong and stays as it was;
//! [`NetBuilder::finish`] gives a [`Network`], in which links lead from each router to each other one.
//! [`Network::policies`] is the table of a router's policies, [`PolicyTable::for_prefix`] the policy for a prefix.
//!
//! The definitions stand in `specs/`: `Paths`, `Orders`, `Plans` (networks as plain data), `Policies` (permitted paths
//! and their order), `Choices` (the best of the paths that a router hears), `Adding` (what each call adds and refuses).
//!
//! [`Chosen::better_onward`] is a step of the choice among the paths that a router hears. Left out: whose paths those
//! are, and stable assignments; texts; networks that change.
#![tactic(auto)]

mod admission;
mod builder;
mod connected;
mod items;
pub mod laws;
mod limits;
mod network;
mod onward;
mod path;
mod peers;
mod places;
mod policy;
mod refusal;
mod rules;
mod table;
mod ways;

pub use builder::NetBuilder;
pub use items::NetItems;
pub use limits::{
    GREATEST_CUT, GREATEST_PIPE, LONGEST_PATH, MOST_LINKS, MOST_PATHS, MOST_PREFIXES, MOST_ROUTERS,
    MOST_RULES,
};
pub use network::{Link, NetRouter, Network, Origin, RankRule, Settings};
pub use onward::{is_onward, is_same_path};
pub use path::{Asn, Path};
pub use policy::{Chosen, Only, Policy, Ranked, Shortest, is_listed};
pub use refusal::NetError;
pub use rules::Rules;
pub use table::PolicyTable;
