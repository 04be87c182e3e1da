//! Definitions that are wrong, each beside a small run in which a law fails for it: they show what the laws refuse.
ghost use Rattle.run_model.specs.WrongTwins.{UsingAnyBreaksOrder, LateRecordingBreaksCut, OvertakingBreaksChannel, ForgettingBreaksStability};

/// An end that uses another incarnation's messages as its own: what it used in incarnation 2 is no beginning of what its
/// peer said in it.
pub fn using_any_incarnation_breaks_order()
    ensures { UsingAnyBreaksOrder }
{}

/// A router that records at the last of its peers' markers instead of the first: it took inside what its peer appended
/// outside, and there is no consistent cut.
pub fn recording_at_the_last_marker_breaks_the_cut()
    ensures { LateRecordingBreaksCut }
{}

/// A router whose markers go ahead of messages that wait: the recorded channel lacks what was said inside.
pub fn overtaking_markers_break_the_channel()
    ensures { OvertakingBreaksChannel }
{}

/// A pending flag that forgets words not yet told: a snapshot is called settled whose paths are no stable assignment.
pub fn forgetting_words_breaks_stability()
    ensures { ForgettingBreaksStability }
{}
