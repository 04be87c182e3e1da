//! Tests of networks and policies (`ranked_policy`) and of the tables of one router (`rib_tables`).
//! They stand in a crate of their own, since a crate with tests is proved once for itself and once more
//! for them.
#![tactic(auto)]

#[cfg(test)]
mod tests;
