//! Small cases that show what the definitions say, each computed: two routers of one link, and a router whose peer is
//! hostile.

ghost use Rattle.router_model.specs.Examples.{OriginatesOnce, StartsAndSaysOpen, FaultyHeaderCloses, StrayItemsAreDropped, NoIncarnationIsLeft, OldOctetsAreGone, NoStampIsLeft, WrongNumberCloses, StrangePathCloses, NothingBesideTheLastStamp, TellingSetsTheTimer, AnnouncementWins, TellsBelowTheLimit, WideNumberIsSaid};

/// A prefix is originated once and decided once, and there is nobody to tell. A router that is no peer, and a router
/// that is no origin, are refused.
pub fn originates_once()
    ensures { OriginatesOnce }
{}

/// Two routers start: the dials, the stamps, and the octets of the OPEN.
pub fn starts_and_says_open()
    ensures { StartsAndSaysOpen }
{}

/// The event whose stamp would pass 2^62 is refused.
pub fn no_stamp_is_left()
    ensures { NoStampIsLeft }
{}

/// A faulty header waits until it is handled; its fault is told then, and the incarnation is shut.
pub fn faulty_header_closes()
    ensures { FaultyHeaderCloses }
{}

/// Octets of another incarnation, a marker before Established and an old dial change nothing but the stamp.
pub fn stray_items_are_dropped()
    ensures { StrayItemsAreDropped }
{}

/// The greatest incarnation is shut: the retry that would dial the next is refused.
pub fn no_incarnation_is_left()
    ensures { NoIncarnationIsLeft }
{}

/// The octets held of an incarnation are gone as it closes.
pub fn old_octets_are_gone()
    ensures { OldOctetsAreGone }
{}

/// An OPEN of another number than the peer's, and a path that does not begin with the peer, close the session with their
/// NOTIFICATION.
pub fn faults_close()
    ensures number { WrongNumberCloses }
    ensures path { StrangePathCloses }
{}

/// At the last stamp, a call that is barred and a call with nothing to do are answered as such, and not with the
/// stamp's end.
pub fn nothing_beside_the_last_stamp()
    ensures { NothingBesideTheLastStamp }
{}

/// An UPDATE told sets the KeepaliveTimer again, and leaves the HoldTimer.
pub fn telling_sets_the_timer()
    ensures { TellingSetsTheTimer }
{}

/// Within one UPDATE an announcement wins over a withdrawal of the same prefix, wherever they stand.
pub fn announcement_wins()
    ensures { AnnouncementWins }
{}

/// With 65,535 octets waiting a peer is told; with 65,536 it is not.
pub fn tells_below_the_limit()
    ensures { TellsBelowTheLimit }
{}

/// If AS numbers have four octets, an OPEN says a number greater than 65535 in its capability, and an OPEN without the
/// capability is refused.
pub fn wide_number_is_said()
    ensures { WideNumberIsSaid }
{}
