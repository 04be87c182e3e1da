//! The calls of a router.

use ranked_policy::Asn;
use router_model::Command;

/// A call of a router, but for puts and takes of items.
#[derive(Clone, Copy)]
pub enum Call {
    /// To obey a command.
    Obey(Command),
    /// To let a second pass.
    Tick,
    /// To handle the message or fault of a peer.
    Handle(Asn),
    /// To decide once.
    Decide,
    /// To tell one peer of one prefix.
    Advertise,
}
