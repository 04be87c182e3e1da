//! What a session asks of its router.

ghost use Rattle.std.specs.Prelude.{◌≡◌, ◌≤◌, length};

use std::marker::Model;

/// One thing that the router is to do.
#[derive(Clone, Copy, Debug, PartialEq, Eq)]
pub enum Action {
    /// Dial the peer.
    Dial,
    /// Send an OPEN.
    SendOpen,
    /// Send a KEEPALIVE.
    SendAlive,
    /// Send a NOTIFICATION of this code (RFC 4271 section 4.5), with subcode 0 and no data.
    SendNotice(u8),
    /// Send the NOTIFICATION of the fault that the caller has.
    SendGiven,
    /// Hang up.
    HangUp,
    /// Act on the UPDATE that came.
    Act,
    /// Established is entered.
    Up,
    /// Established is left.
    Down,
}

/// At most four actions, in the order in which they are to be done. They lie in the value itself.
#[derive(Drop)]
pub struct Actions {
    slots: [Action; 4],
    len: usize,
}

impl Model for Actions {
    ghost use Rattle.std.specs.Prelude.{List, take, ◌≤◌};
    ghost use Rattle.session_fsm.specs.declared.actions.Action.{Action};

    ghost Value = { List Action };

    ghost view = { λ a. take a.len a.slots };

    ghost invariant = { λ a. a.len ≤ 4 };
}

impl Actions {
    pub(crate) fn of(actions: &[Action]) -> Actions
        requires { length actions.now ≤ 4 }
        ensures { result ≡ actions.now }
    {
        let mut slots = [Action::HangUp; 4];
        slots[..actions.len()].copy_from_slice(actions);
        Actions {
            slots,
            len: actions.len(),
        }
    }

    /// The actions, the first to be done first.
    pub fn as_slice(&self) -> &[Action]
        ensures value { result.now ≡ self.now }
        ensures few { length result.now ≤ 4 }
    {
        &self.slots[..self.len]
    }
}
