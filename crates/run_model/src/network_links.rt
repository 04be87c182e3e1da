//! The links of a network run: first in, first out for what routers tell one another.
ghost use Rattle.run_model.specs.NetworkLinks.{NetworkRunsAreLinkRuns, NetworkActedBeginsSent, NetworkNoneAfterClose, NetworkJoinedHeardItsOwn};

/// By the moves between two routers, a run of the network is a run of link ends (`run`): every law of link ends and of
/// octets holds of the two. The UPDATEs that a router acted on in an incarnation are a beginning of those that its peer
/// sent in it (`begins`). None is acted on after the router's close (`none_after_close`). An end that is joined has
/// heard exactly its own number (`joined`).
///
/// Premises: each event is one that `MayHappen` allows. It does not say that an UPDATE that was sent is ever acted on.
pub fn network_runs_are_link_runs<M, P, W>()
    ensures run { NetworkRunsAreLinkRuns M P W }
    ensures begins { NetworkActedBeginsSent M P W }
    ensures none_after_close { NetworkNoneAfterClose M P W }
    ensures joined { NetworkJoinedHeardItsOwn M P W }
{}
