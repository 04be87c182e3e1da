//! Tests of routers together: of worlds that are played (`world_core`), of scripts of chores (`worker_loop`),
//! of pipes (`ruled_pipe`) and of networks in threads (`net_workers`). They stand in a crate of their own, since a crate with tests
//! is proved once for itself and once more for them.
#![tactic(auto)]

#[cfg(test)]
mod tests;
