//! The routers of a network with their peers.

ghost use Rattle.std.specs.Prelude.{◌≡◌, map};
ghost use Rattle.snap_collector.specs.Verdicts.{is_member};
ghost use Rattle.snap_collector.specs.Collecting.{member_of};

use ranked_policy::{Asn, NetItems};

/// A router, and its peers.
#[derive(Debug, Drop)]
pub struct Member {
    /// The router.
    pub router: Asn,
    /// Its peers, rising.
    pub peers: NetItems<Asn>,
}

/// Whether a router is one of the members.
pub fn is_member(members: &[Member], router: Asn) -> bool
    ensures { result ≡ is_member (map member_of members.now) router }
{
    for member in members {
        if router == member.router {
            return true;
        }
    }
    false
}
