//! Small runs and assignments that show what the definitions say, each with its proof: no definition is empty, or holds
//! of everything.
ghost use Rattle.run_model.specs.Examples.{DialAtOnceJoins, LengthsAreFrames, StreamEndsAtShut, SessionsComeUp, SettledRun, MovingRun, ResetRun};
ghost use Rattle.run_model.specs.RankedExamples.{DisagreeHasTwo, RingHasNone};

/// Two ends that dial at once offer the same number, and each joins by the other's dial.
pub fn dial_at_once()
    ensures { DialAtOnceJoins }
{}

/// Messages that are written behind their length are a framing: no frame is empty or begins another.
pub fn lengths_are_frames()
    ensures { LengthsAreFrames }
{}

/// The octets of an incarnation are those before its end, and of that incarnation alone.
pub fn stream_ends_at_shut()
    ensures { StreamEndsAtShut }
{}

/// Two sessions come up from Idle to Established. After a close, one of them answers the next number at once.
pub fn sessions_come_up()
    ensures { SessionsComeUp }
{}

/// A whole run of two routers, from the opening to the collector. Its snapshot is settled, and it is quiet to its end:
/// the premises of the laws of settled snapshots can be met together.
pub fn settled_run()
    ensures { SettledRun }
{}

/// A run in which a withdrawal is in flight as the routers record: every router has a part, nothing was pending, and
/// the snapshot is moving.
pub fn moving_run()
    ensures { MovingRun }
{}

/// A run in which a session is reset in the window of a recording: the snapshot is abandoned, and the session is up
/// again in incarnation 2.
pub fn reset_run()
    ensures { ResetRun }
{}

/// DISAGREE (Griffin, Shepherd and Wilfong 2002) has exactly two stable assignments.
pub fn disagree_has_two()
    ensures { DisagreeHasTwo }
{}

/// The ring of three routers round an origin, each of which prefers the way through the next, has no stable assignment.
pub fn ring_has_none()
    ensures { RingHasNone }
{}
