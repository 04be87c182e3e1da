//! How a snapshot comes out.

use ranked_policy::Asn;
use snap_marker::Lost;

/// Why a snapshot is not settled.
#[derive(Clone, Copy, Debug, PartialEq, Eq)]
pub enum Why {
    /// The router's own part is pending: it had a path to decide, or a peer to tell.
    Pending,
    /// The recorded channel from this peer to the router is not empty.
    InFlight(Asn),
    /// The parts of the router and of this peer name two incarnations of their link.
    Mismatch(Asn),
}

/// How a snapshot comes out.
#[derive(Clone, Copy, Debug, PartialEq, Eq)]
pub enum Outcome {
    /// Nothing has decided it yet.
    Waiting,
    /// A recording was lost, the first of those offered.
    Abandoned(Lost),
    /// Every router has a part, and some part has a fault. This is the first: of the least router that has one, first
    /// its pending part, then the least channel that is not empty, then the least peer with another incarnation.
    Moving {
        /// The router.
        router: Asn,
        /// Its fault.
        why: Why,
    },
    /// Every router has a part, and none has a fault.
    Settled,
}
