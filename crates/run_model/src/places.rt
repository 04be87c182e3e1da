//! From recordings to the places of a run, and the cut that they make.
ghost use Rattle.run_model.specs.Places.{RecordsItsState, WasRecorded, LostStaysLost, RecordedAtOnePlace, FinishedWasRecorded, RecordingsMakeACut, TakenOctetsAreInside};

/// What a router has as recorded is its state after the event that recorded the number (`state`); if it has something,
/// some event recorded it (`event`). A number that is lost at a router never gets a part there (`lost`).
///
/// Premises: each event is one that `MayHappen` allows.
pub fn recorded_at_one_event<M, P, W>()
    ensures state { RecordsItsState M P W }
    ensures event { WasRecorded M P W }
    ensures lost { LostStaysLost M P W }
{}

/// For each number that a router recorded, exactly one of its own events recorded it, and what it has as recorded is
/// its state after that event (`place`). A recording that was finished was recorded (`finished`). If every router
/// finished a snapshot, these events are a consistent cut, as numbers of each router's own first events. What was taken
/// inside was appended inside, both ends of each link are in one incarnation, and each recorded channel is the UPDATEs
/// that were said inside and not acted on inside (`cut`). Octets that were taken inside, handled or not, were appended
/// inside (`octets`).
///
/// Premises: each event is one that `MayHappen` allows; for `cut` and `octets` that links lead both ways; for `octets` that
/// what was taken is a beginning of what passes, and that a router holds no octet as it takes a marker. It does not say
/// when an octet was put.
pub fn recordings_make_a_cut<M, P, W>()
    ensures place { RecordedAtOnePlace M P W }
    ensures finished { FinishedWasRecorded M P W }
    ensures cut { RecordingsMakeACut M P W }
    ensures octets { TakenOctetsAreInside M P W }
{}
