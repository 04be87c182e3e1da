//! Tests of one router and of two (`router_core`), and of one side of a router (`router_side`). They stand in a crate of their own, since a crate with
//! tests is proved once for itself and once more for them.
#![tactic(auto)]

#[cfg(test)]
mod tests;
