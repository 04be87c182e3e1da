//! The tests of each crate, in a module of its name.

mod bgp_values_tests;
mod laws;
mod link_epoch_tests;
mod marker_lanes_tests;
mod prefix_lanes_tests;
mod run_model_tests;
mod session_fsm_tests;
