//! Commands to a router.

use prefix_lanes::Prefix;
use ranked_policy::Asn;

/// A command to one router.
#[derive(Clone, Copy, Debug, PartialEq, Eq)]
pub enum Command {
    /// Start the session with this peer (RFC 4271 section 8.1.2, event 1).
    Start(Asn),
    /// Stop the session with this peer (event 2).
    Stop(Asn),
    /// Stop the session with this peer, and start it again.
    Reset(Asn),
    /// Originate a prefix that the network names with this router as its origin.
    Originate(Prefix),
    /// Originate a prefix no longer.
    Withdraw(Prefix),
    /// Record a snapshot with this number, which has to be above the last recorded.
    Snapshot(u32),
    /// Stop every session, and forget what is kept and originated.
    Restart,
}
