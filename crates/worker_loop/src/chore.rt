//! The chores of a worker.

ghost use Rattle.std.specs.Prelude.{◌≡◌, IsTrue};
ghost use Rattle.worker_loop.specs.declared.chore.Chore.TheVariants.{Turn};

use router_model::Command;

/// What a gate tells a worker to do.
#[derive(Clone, Copy, Debug, PartialEq, Eq)]
pub enum Chore {
    /// A turn: with each peer, rising, one Put, one Take and one Handle are tried; then one Decide, one
    /// Advertise and one Offer.
    Turn,
    /// To let a second pass.
    Tick,
    /// To obey a command.
    Command(Command),
    /// To end.
    Stop,
}

impl Chore {
    /// Whether the chore is a Turn.
    pub fn is_turn(&self) -> bool
        ensures { IsTrue result → self.now ≡ Turn }
    {
        match self {
            Chore::Turn => true,
            Chore::Tick | Chore::Command(_) | Chore::Stop => false,
        }
    }
}
