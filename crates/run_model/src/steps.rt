//! What holds of a router's ends and recordings in the states of runs, for its next event.
ghost use Rattle.run_model.specs.Steps.{NetworkEndFactsHold, CopiesAreACut, CopiesAreMarked, CopiesAreTheState, LinkEndsKeepEnough, MarkersAreObeyed};

/// In every run of the network the facts of link ends hold of both ends of each link. What an end took is a beginning
/// of what its peer appended. Each message has the number that was dialled before it. An end joins only what its peer
/// dialled, and has used what it took of the incarnation that it is joined in. With [`crate::session_events_lead_on`] a
/// session event that may come, at an end that fits its session's state, leaves the end fitting the new one.
///
/// Premises: each event is one that `MayHappen` allows.
pub fn states_of_runs<M, P, W>()
    ensures { NetworkEndFactsHold M P W }
{}

/// If every router finished a snapshot, what the routers have as recorded is a consistent cut with its channels, octets
/// included (`cut`). It is the router's state after the whole event that recorded (`state`). Each end that was up has
/// sent its marker by then (`marked`).
///
/// Premises: each event is one that `MayHappen` allows; for `cut` that links lead both ways, that the snapshot has a
/// part of every router, and for the octets that a router holds none if it took all that had been appended; for `state`
/// that behind the act that records a number the event of the router at most finishes it.
pub fn copies_are_a_cut<M, P, W>()
    ensures cut { CopiesAreACut M P W }
    ensures marked { CopiesAreMarked M P W }
    ensures state { CopiesAreTheState M P W }
{}

/// In every run of the network a link end keeps enough by three values: the greatest number heard, whether that is
/// shut, and the next number to dial. Kept entry by entry, they are those of all that the end took and appended.
///
/// Premises: each event is one that `MayHappen` allows.
pub fn link_ends_keep_enough<M, P, W>()
    ensures { LinkEndsKeepEnough M P W }
{}

/// In every run of the network an end that is joined took no marker of its own incarnation whose number is above the last
/// that its router recorded.
///
/// Premises: each event is one that `MayHappen` allows.
pub fn markers_are_obeyed<M, P, W>()
    ensures { MarkersAreObeyed M P W }
{}
