//! Laws of the definitions of one router. Each is the contract of a function without work of its own.

ghost use Rattle.router_model.specs.Laws.{StepsAppendWhatTheySay, AnswersAreSteps, IdleWhereNothingMayCome, LinkedRoutersArePeers, SentIsWhatIsSaid, AnyItemIsTaken, WhatWaitsIsHandled, RouterPutsCommute, PutsLeaveWhatIsSaid};
ghost use Rattle.router_model.specs.Recording.{DraftsLeaveEstablished, LeavingLosesTheRecording, RecordingsGoOn};

/// If the session with a peer leaves Established while a snapshot is recorded, its loss is queued by the least such
/// peer, in the incarnation that was left, and the recording ends (`loses`). Otherwise numbers rise, a recording goes
/// on or is new, and a part is queued as its recording ends (`goes_on`).
pub fn leaving_loses_the_recording()
    ensures loses { LeavingLosesTheRecording }
    ensures goes_on { RecordingsGoOn }
{}

/// The draft of a session's event leaves its incarnation exactly where the session was Established and is no more. A
/// reset leaves it wherever the session was Established.
pub fn drafts_leave_established()
    ensures { DraftsLeaveEstablished }
{}

/// A link joins two routers of the network, whichever it names first, and each is among the peers of the other.
pub fn linked_routers_are_peers()
    ensures { LinkedRoutersArePeers }
{}

/// The items that a step puts towards a peer, then the outbox, are the old outbox, then what the step says. Nothing
/// that waits is lost, changed or overtaken.
pub fn steps_append_what_they_say()
    ensures { StepsAppendWhatTheySay }
{}

/// If a call answers that an event is done, the event is one that the call can be, and a step.
pub fn answers_are_steps()
    ensures { AnswersAreSteps }
{}

/// A call answers that there is nothing to do only where none of the events that it can be may come.
pub fn idle_where_nothing_may_come()
    ensures { IdleWhereNothingMayCome }
{}

/// The history of UPDATEs sent in an incarnation has the UPDATEs said in it.
pub fn sent_is_what_is_said()
    ensures { SentIsWhatIsSaid }
{}

/// Whatever a peer hands in is taken, unless a message of the peer waits to be handled or no stamp is left (`taken`). A
/// message or fault that waits is handled (`handled`). Nothing that a peer hands in stops a router.
pub fn any_item_is_answered()
    ensures taken { AnyItemIsTaken }
    ensures handled { WhatWaitsIsHandled }
{}

/// A put may change places with each event of the router that puts nothing in its direction (`commute`), and the event
/// says the same on either side of the put (`said`). A run may thus be reordered to pass through a consistent cut.
pub fn puts_commute()
    ensures commute { RouterPutsCommute }
    ensures said { PutsLeaveWhatIsSaid }
{}
