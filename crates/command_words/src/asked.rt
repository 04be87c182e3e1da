//! What words ask for, as a value.

use bgp_codec::Rule;
use stable_search::SearchLimits;

/// A task that starts no thread.
#[derive(Clone, Copy)]
pub enum Task {
    /// Decode under a rule: the width of AS numbers, and the speaker's number where `--peer` names it.
    Decode(Rule),
    /// Check an assignment, and list all routers that would move, or name the first.
    Check(bool),
    /// Play a schedule.
    Play,
    /// Write the run of a schedule as a schedule, with the octets of what is sent, or without.
    Trace(bool),
    /// Show the cut of the snapshot of this number.
    Cut(u32),
    /// Show what the router of this number knows.
    Why(u32),
    /// List all stable assignments, as far as these limits of each dispute let it.
    Stable(SearchLimits),
    /// Look for dispute wheels, with at most so many paths of a router without a rule.
    Safe(usize),
}

/// The numbers of a word that runs a network in threads.
#[derive(Clone, Copy)]
pub struct ThreadNumbers {
    /// The chores of each router.
    pub turns: u32,
    /// The snapshots that are taken.
    pub snapshots: u32,
}

/// What the words ask for.
#[derive(Drop)]
pub enum Asked {
    /// A task that starts no thread.
    Task(Task),
    /// To run a network in threads.
    Run(ThreadNumbers),
    /// To run a network in threads, and write what they did as a schedule.
    Record(ThreadNumbers),
    /// A text to write, and the status to end with.
    Text(String, u8),
}
