//! Entries found again in the octets that pass, however they were cut.
ghost use Rattle.run_model.specs.Octets.{NextFrameIsNextMessage, HeldBeginsNextMessage, NextControlIsNextEntry, DroppedOctetsAreMessages, OctetsStayBeforeMark, NoStaleOctetWhileJoined, NoneDroppedBeforeAnswer, PassingAppends};
ghost use Rattle.std.specs.Prelude.{ℕ, List};

/// Which octets are frames. An implementation has no code: its member stands for what a codec's contracts show.
pub trait Framing {
    /// Whether octets are one whole frame: a good header, and as many octets as it tells.
    ghost is_frame: { List ℕ → Type 0 };
}

/// The entries of a direction are found again in the octets that pass, however messages are written. A whole frame that
/// is held is the next message said (`message`). Octets that are held are a beginning of the next message said, or that
/// message is a beginning of them: no faulty header is ever held (`held`). Another entry is met only while no octet of
/// a message is held, and is the next entry (`control`). Octets that were dropped were those of whole messages
/// (`dropped`). Octets that were taken and not handled stand before a marker that was not taken (`stay`). No octet of
/// another incarnation comes to an end that is joined (`no_stale`). An end that is about to join by its own dial has
/// dropped none since the dial that it answers (`none_dropped`): stale octets end before a new incarnation begins.
///
/// Premises: no frame is empty or begins another (`IsFraming`), and every message that was said is written as a frame
/// (`AllFrames`). How messages are written is a parameter of each law: it may depend on the sender, or on the width of
/// its numbers. Nothing is asked of messages that were never said. The laws do not say how a frame decodes that no
/// message is written as.
pub fn octets_are_entries<M, F: Framing>()
    ensures message { NextFrameIsNextMessage M F.is_frame }
    ensures held { HeldBeginsNextMessage M F.is_frame }
    ensures control { NextControlIsNextEntry M F.is_frame }
    ensures dropped { DroppedOctetsAreMessages M }
    ensures stay { OctetsStayBeforeMark M }
    ensures no_stale { NoStaleOctetWhileJoined M F.is_frame }
    ensures none_dropped { NoneDroppedBeforeAnswer M }
{}

/// What passes for entries and then for others is what passes for the first, and then what passes for the others.
pub fn passing_appends<M>()
    ensures { PassingAppends M }
{}
