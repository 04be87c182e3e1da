//! What is recorded of a snapshot, and what is offered of it.

ghost use Rattle.std.specs.Prelude.{◌≡◌, not};
ghost use Rattle.snap_marker.specs.Parts.{router_of, number_of, part_of, is_empty};

use crate::links::{epoch_in, has_updates};
use bgp_codec::Update;
use prefix_lanes::Prefix;
use ranked_policy::{Asn, Path};

/// The path that a router kept for a prefix.
#[derive(Debug, Drop)]
pub struct KeptPath {
    /// The prefix.
    pub prefix: Prefix,
    /// The path, the router itself first; empty if it kept none.
    pub path: Path,
}

/// What is recorded of the link to a peer.
#[derive(Debug, Drop)]
pub struct Channel {
    /// The peer.
    pub peer: Asn,
    /// The incarnation of the link, as this end has it.
    pub epoch: u32,
    /// Whether the peer's marker is still to come. In a part that is offered it has come.
    pub is_open: bool,
    /// The UPDATEs of the peer that were acted on since the recording, until its marker came, the first first.
    pub updates: Vec<Update>,
}

/// What a router recorded of a snapshot.
#[derive(Debug, Drop)]
pub struct Part {
    /// The router.
    pub router: Asn,
    /// The number of the snapshot.
    pub number: u32,
    /// The path kept for each prefix.
    pub kept: Vec<KeptPath>,
    /// The prefixes that the router originated.
    pub originated: Vec<Prefix>,
    /// Whether some kept path was not the best of the choices, or some Established peer had not been told of one.
    pub pending: bool,
    /// The links, by rising peer.
    pub channels: Vec<Channel>,
}

/// Why a recording was lost.
#[derive(Clone, Copy, Debug, PartialEq, Eq)]
pub enum Cause {
    /// The session with the peer was not Established as the recording began.
    NotUp,
    /// The session with the peer left Established before the recording was finished.
    Closed,
    /// A greater number was recorded while the peer's marker was missing.
    Superseded,
}

/// A recording that was lost.
#[derive(Clone, Copy, Debug, PartialEq, Eq)]
pub struct Lost {
    /// The router.
    pub router: Asn,
    /// The number of the snapshot.
    pub number: u32,
    /// The peer by whose link it was lost.
    pub peer: Asn,
    /// The incarnation of that link.
    pub epoch: u32,
    /// Why.
    pub cause: Cause,
}

/// What a router offers to the collector of snapshots.
#[derive(Debug, Drop)]
pub enum Offer {
    /// A recording that is whole.
    Part(Part),
    /// A recording that was lost.
    Lost(Lost),
}

impl Offer {
    /// The router that offers it.
    pub fn router(&self) -> Asn
        ensures { result ≡ router_of self.now }
    {
        match self {
            Offer::Part(part) => part.router,
            Offer::Lost(lost) => lost.router,
        }
    }

    /// The number of the snapshot.
    pub fn number(&self) -> u32
        ensures { result ≡ number_of self.now }
    {
        match self {
            Offer::Part(part) => part.number,
            Offer::Lost(lost) => lost.number,
        }
    }
}

impl Part {
    /// The incarnation of the link to a peer, or 0 if the part has no such link.
    pub fn epoch(&self, peer: Asn) -> u32
        ensures { result ≡ (part_of self.now).incarnation peer }
    {
        epoch_in(&self.channels, peer)
    }

    /// Whether the channel of a peer has an UPDATE.
    pub fn is_in_flight(&self, peer: Asn) -> bool
        ensures { result ≡ not (is_empty ((part_of self.now).channel peer)) }
    {
        has_updates(&self.channels, peer)
    }
}
