//! The tables of a router follow the session with one peer.

ghost use Rattle.std.specs.Prelude.{◌≡◌, Some, slice_get};
ghost use Rattle.router_model.specs.Settings.{peers};
ghost use Rattle.router_core.specs.Following.{Followed};

use ranked_policy::Asn;
use rib_tables::Rib;

/// Lets the tables follow the session with the peer at a place. `was` is the incarnation in which it was Established
/// before, if it was; `now` is the one in which it is now, if it is. It takes no memory.
pub(crate) fn follow(
    tables: &mut Rib<'_>,
    peer_at: usize,
    peer: Asn,
    was: Option<u32>,
    now: Option<u32>,
)
    requires { slice_get (peers tables.old.net tables.old.router) peer_at ≡ Some peer }
    ensures { Followed tables.old tables.new peer was now }
{
    match (was, now) {
        (None, None) => {}
        (None, Some(_)) => tables.come_up_at(peer_at, peer),
        (Some(_), None) => tables.forget_at(peer_at, peer),
        (Some(was), Some(now)) => {
            if was != now {
                tables.forget_at(peer_at, peer);
                tables.come_up_at(peer_at, peer);
            }
        }
    }
}
