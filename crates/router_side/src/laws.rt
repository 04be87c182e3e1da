//! Laws of the definitions of a side. Each is the contract of a function without work of its own.

ghost use Rattle.router_side.specs.Acting.{UpdatesAreActedOn, TellingsAreSayable};
ghost use Rattle.router_side.specs.Freshness.{SessionsKeepFresh, SignsKeepFresh, MessagesKeepFresh};
ghost use Rattle.std.specs.Prelude.{◌≡◌};
ghost use Rattle.router_side.specs.declared.told_path.TheConstants.{MOST_NUMBERS};

use bgp_codec::laws::written_has_a_header;

/// A start, a stop, a reset and a second leave an incarnation without UPDATEs acted on or sent until its session is
/// Established: a session that comes up begins with no words. An incarnation never goes back.
pub fn sessions_keep_fresh()
    ensures { SessionsKeepFresh }
{}

/// A Dial or a Shut of the peer that is taken, and a message or a fault that is handled, leave an incarnation without
/// UPDATEs acted on or sent until its session is Established. Handling dials nothing. It acts on an UPDATE only in
/// Established, which it does not leave then.
pub fn what_comes_keeps_fresh()
    ensures signs { SignsKeepFresh }
    ensures messages { MessagesKeepFresh }
{}

/// An UPDATE that comes in Established is acted on. Its draft does nothing else but to set the HoldTimer again.
pub fn updates_are_acted_on()
    ensures { UpdatesAreActedOn }
{}

/// An UPDATE that tells a path of at most [`crate::MOST_NUMBERS`] numbers, which fit the width, can be said.
pub fn told_updates_are_sayable()
    ensures { TellingsAreSayable }
{
    written_has_a_header();
}

/// A path that is told as the UPDATEs of routers are has at most 63 numbers, so that its AS_PATH is one segment of at most
/// 254 octets.
pub fn constants_are_these()
    ensures numbers { MOST_NUMBERS ≡ 63 }
{}
