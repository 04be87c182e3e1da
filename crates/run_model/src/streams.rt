//! The octets of one incarnation of a direction, as one stream.
ghost use Rattle.run_model.specs.Streams.{BeginningsPass, OctetsBeginWhatIsSaid, NothingSaidBehindShut, AllOctetsPass, UsedOctetsWereTaken, NoStaleOctetAtAnEnd, NoneDroppedAtAnEnd};

use crate::octets::Framing;

/// The octets of an incarnation, up to its end, are those of the messages said in it, one behind the other. In any
/// beginning of what passes they are a beginning of these (`begins`, `beginnings`). In every run nothing is said in an
/// incarnation behind its end (`none_behind`): in each beginning of what was appended they are all of them (`all`). The
/// octets of the messages that an end used are a beginning of those that it took (`used`).
///
/// Premises: for the last three that the ends begin with nothing appended and each move is one that `May` allows. How
/// messages are written is a parameter. It does not say that any octet is ever taken.
pub fn octets_of_an_incarnation<M>()
    ensures beginnings { BeginningsPass M }
    ensures begins { OctetsBeginWhatIsSaid M }
    ensures none_behind { NothingSaidBehindShut M }
    ensures all { AllOctetsPass M }
    ensures used { UsedOctetsWereTaken M }
{}

/// What `octets_are_entries` says of stale octets in a run (`no_stale`, `none_dropped`) holds of two ends of which the
/// facts of link ends hold, whatever led to them.
pub fn no_octet_is_stale<M, F: Framing>()
    ensures no_stale { NoStaleOctetAtAnEnd M F.is_frame }
    ensures none_dropped { NoneDroppedAtAnEnd M }
{}
