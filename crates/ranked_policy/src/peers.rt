//! The peers of a router.

ghost use Rattle.std.specs.Prelude.{◌≡◌, map, IfOk};

use crate::items::NetItems;
use crate::network::Link;
use crate::path::Asn;
use std::alloc::{AllocError, Global};

// The numbers of the routers to which links lead.
pub(crate) fn peers_of(alloc: Global, links: &[Link]) -> Result<NetItems<Asn>, AllocError>
    ensures { IfOk result (λ peers. peers ≡ map (λ link. link.other) links.now) }
{
    let mut peers = Vec::with_capacity(alloc, links.len())?;
    for link in links {
        peers.push(link.other)?;
    }
    Ok(NetItems::from_vec(peers))
}
