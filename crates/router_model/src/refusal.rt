//! Why a router refuses a call, and what a step answers.

ghost use Rattle.std.specs.Prelude.{◌≡◌};
ghost use Rattle.router_model.specs.declared.refusal.RouterError.TheVariants.{Memory};

use ranked_policy::Asn;
use std::alloc::AllocError;
use thiserror::Error;

/// Why a call was refused; the router is as it was. The first that applies is answered, in this order. Those up to
/// `OldSnapshot` come before the answer that there is nothing to do, the others behind it.
#[derive(Clone, Copy, Debug, PartialEq, Eq, Error)]
pub enum RouterError {
    /// No link leads to that peer.
    #[error("no such peer")]
    NoSuchPeer,
    /// The network doesn't name this router as origin of the prefix.
    #[error("not the origin of the prefix")]
    NotOrigin,
    /// The number isn't above `last`, the last snapshot recorded here (0 at first).
    #[error("snapshot {last} was recorded already")]
    OldSnapshot {
        /// The last number recorded.
        last: u32,
    },
    /// Some peer waits to be told, and each that does has an outbox at the limit of 65,536 octets.
    #[error("outboxes are full, that of {peer} among them")]
    Blocked {
        /// The least such peer.
        peer: Asn,
    },
    /// A whole message or a fault from that peer waits to be handled.
    #[error("a message of {peer} waits")]
    Held {
        /// The peer.
        peer: Asn,
    },
    /// The event's stamp would pass 2^62.
    #[error("no stamp is left")]
    StampEnd,
    /// A dial would pass the greatest incarnation, 4,294,967,295.
    #[error("no incarnation is left")]
    EpochEnd,
    /// A growth was refused.
    #[error("memory")]
    Memory,
}

/// What a step that was not refused answers.
#[derive(Clone, Copy, Debug, PartialEq, Eq)]
pub enum Stepped {
    /// The step was done.
    Did,
    /// There was nothing to do; nothing changed.
    Nothing,
}

impl From<AllocError> for RouterError {
    ghost from_gives = { λ _ error. error ≡ Memory };

    fn from(_error: AllocError) -> RouterError {
        RouterError::Memory
    }
}
