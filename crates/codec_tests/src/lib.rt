//! Tests of messages and faults (`bgp_codec`), of framing (`bgp_framing`) and of what waits to be put
//! (`outbox`). They stand in a crate of their own, since a crate with tests is proved once for itself
//! and once more for them.
#![tactic(auto)]

#[cfg(test)]
mod tests;
