//! The tests of each crate, in a module of its name.

mod bgp_codec_tests;
mod bgp_framing_tests;
mod framed_tests;
mod laws;
mod outbox_tests;
