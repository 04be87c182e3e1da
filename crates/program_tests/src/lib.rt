//! Tests of the program: what it writes for what it reads (`command_line`), and gates and records of networks
//! in threads (`thread_engines`). They stand in a crate of their own, since a crate with tests is proved once for
//! itself and once more for them.
#![tactic(auto)]

#[cfg(test)]
mod tests;
