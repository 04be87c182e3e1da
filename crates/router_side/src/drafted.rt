//! What a router says to a peer, in short.

ghost use Rattle.std.specs.Prelude.{◌≡◌, ◌≤◌, ◌<◌, ◌++◌, ◌∷◌, [], length};

use std::marker::Model;

/// Something to append towards a peer. A message stands in short: which one it is, and its incarnation.
#[derive(Clone, Copy, Debug, PartialEq, Eq)]
pub enum Say {
    /// An offer to connect in this incarnation.
    Dial(u32),
    /// The end of an incarnation.
    Shut(u32),
    /// The router's OPEN, in an incarnation.
    Open(u32),
    /// A KEEPALIVE.
    Alive(u32),
    /// A NOTIFICATION of this code, without data.
    Notice(u32, u8),
    /// The NOTIFICATION of the fault at hand, if there is one.
    Given(u32),
}

/// At most 40 things to append, in their order. They lie in the value itself.
#[derive(Drop)]
pub struct Says {
    slots: [Say; 40],
    len: usize,
}

impl Model for Says {
    ghost use Rattle.std.specs.Prelude.{List, take, ◌≤◌};
    ghost use Rattle.router_side.specs.declared.drafted.Say.{Say};

    ghost Value = { List Say };

    ghost view = { λ a. take a.len a.slots };

    ghost invariant = { λ a. a.len ≤ 40 };
}

impl Says {
    /// Nothing to append.
    pub fn new() -> Says
        ensures { result ≡ [] }
    {
        Says {
            slots: [Say::Dial(0); 40],
            len: 0,
        }
    }

    /// Adds one more, behind the others.
    pub fn push(&mut self, say: Say)
        requires { length self.old < 40 }
        ensures { self.new ≡ self.old ++ say ∷ [] }
    {
        self.slots[self.len] = say;
        self.len += 1;
    }

    /// All of them, in their order.
    pub fn as_slice(&self) -> &[Say]
        ensures value { result.now ≡ self.now }
        ensures few { length result.now ≤ 40 }
    {
        &self.slots[..self.len]
    }
}
