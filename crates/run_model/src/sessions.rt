//! Sessions: their states and the moves of their ends.
ghost use Rattle.run_model.specs.Facts.{SessionEventsLeadOn, UpByFit};
ghost use Rattle.run_model.specs.Sessions.{SessionRunsGoOn, SessionsMakeALinkRun, SessionsFit, UpIsEstablished};

/// A run of sessions, and then events that are a run from where it ends, make a longer run (`on`). A run of sessions
/// is, by the moves of each event, a run of link ends: every law of link ends holds of it (`run`). Each end is always
/// as its session's state says (`fits`), and is up exactly where its session is Established (`up`).
///
/// Premises: all sessions begin in Idle, and each event is one that `MayCome` allows. It does not say which message a
/// session accepts, nor anything of timers.
pub fn sessions_are_link_runs<M>()
    ensures on { SessionRunsGoOn M }
    ensures run { SessionsMakeALinkRun M }
    ensures fits { SessionsFit M }
    ensures up { UpIsEstablished M }
{}

/// The laws of `sessions_are_link_runs` event by event, for a state that is reached in some other way. The moves of a
/// session event may be made one after another. They leave the end fitting the session's new state, and keep the facts
/// of both ends (`leads`). An end that fits its session's state is up exactly where the session is Established (`up`).
///
/// Premises: the end fits its session's state, the facts of link ends hold of both ends, and the event is one that
/// `MayCome` allows; for `up` the first of these.
pub fn session_events_lead_on<M>()
    ensures leads { SessionEventsLeadOn M }
    ensures up { UpByFit M }
{}
