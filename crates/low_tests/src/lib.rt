//! Tests of the values of the standard (`bgp_values`), of octets and prefixes (`marker_lanes`,
//! `prefix_lanes`), of incarnations (`link_epoch`), of the session machine (`session_fsm`) and of the
//! laws of runs (`run_model`). They stand in a crate of their own, since a crate with tests is proved
//! once for itself and once more for them.
#![tactic(auto)]

#[cfg(test)]
mod tests;
