//! Tests of what a router records of a snapshot (`snap_marker`), of the verdict on what routers offer
//! (`snap_collector`), of the board of offers (`offer_board`) and of stable assignments of paths
//! (`stable_paths`) and the search for them (`stable_search`). They stand in a crate of their own, since a crate with tests is proved once for
//! itself and once more for them.
#![tactic(auto)]

#[cfg(test)]
mod tests;
