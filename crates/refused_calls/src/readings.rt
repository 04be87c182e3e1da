//! What the readers of a router say, as a text.

use ranked_policy::{Asn, MOST_LINKS, Network};
use router_core::Router;
use router_model::RouterError;
use std::alloc::{AllocError, Global};

/// Appends what is shown, where there was memory for it.
pub fn push(text: &mut String, shown: Result<String, AllocError>) -> Result<(), AllocError> {
    match shown {
        Ok(shown) => text.push_str(shown.as_str()),
        Err(AllocError) => Err(AllocError),
    }
}

fn acted(alloc: Global, router: &Router<'_>, peer: Asn) -> Result<String, AllocError> {
    match router.acted(alloc, peer) {
        Some(Ok(acted)) => format!(in alloc; " acted {acted:?}"),
        Some(Err(AllocError)) => Err(AllocError),
        None => Ok(String::new(alloc)),
    }
}

fn sent(alloc: Global, router: &Router<'_>, peer: Asn) -> Result<String, AllocError> {
    match router.sent(alloc, peer) {
        Some(Ok(sent)) => format!(in alloc; " sent {sent:?}"),
        Some(Err(AllocError)) => Err(AllocError),
        None => Ok(String::new(alloc)),
    }
}

fn next(alloc: Global, router: &Router<'_>, peer: Asn) -> Result<String, AllocError> {
    match router.next_item(peer) {
        Err(RouterError::Memory) => Err(AllocError),
        next => format!(in alloc; " next {next:?}"),
    }
}

// Whether the link to a peer is idle.
fn is_quiet(router: &Router<'_>, peer: Asn) -> bool {
    for place in 0..MOST_LINKS {
        match router.peer_at(place) {
            Some(other) => {
                if other == peer {
                    return router.link_is_idle_at(place, other);
                }
            }
            None => return false,
        }
    }
    false
}

// Appends what was acted on and sent, and what is put next.
fn push_peer(
    alloc: Global,
    text: &mut String,
    router: &Router<'_>,
    peer: Asn,
) -> Result<(), AllocError> {
    push(text, acted(alloc, router, peer))?;
    push(text, sent(alloc, router, peer))?;
    push(text, next(alloc, router, peer))?;
    let (takes, quiet) = (router.may_take(peer), is_quiet(router, peer));
    push(text, format!(in alloc; " takes {takes} quiet {quiet}"))
}

/// Appends what every reader of a router says.
pub fn push_router(
    alloc: Global,
    text: &mut String,
    network: &Network,
    router: &Router<'_>,
) -> Result<(), AllocError> {
    let (number, stamp, offer) = (router.number(), router.stamp(), router.next_offer());
    push(
        text,
        format!(in alloc; "router {number} stamp {stamp} offers {offer:?}"),
    )?;
    for origin in network.origins() {
        let kept = router.kept(&origin.prefix);
        push(text, format!(in alloc; " kept {kept:?}"))?;
    }
    for peer in network.routers() {
        push_peer(alloc, text, router, peer.asn)?;
    }
    Ok(())
}
