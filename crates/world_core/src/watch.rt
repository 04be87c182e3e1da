//! Who looks on while a world does events.

ghost use Rattle.std.specs.Prelude.{ℕ, ◌≡◌, ◌++◌, [], List, Bool, true, false, OnOk, OnErr};
ghost use Rattle.world_core.specs.Views.{plain_world};
ghost use Rattle.world_core.specs.Watching.{Sayings, Shown, SaysBehind};

use crate::schedule::Event;
use crate::world::World;
use std::alloc::AllocError;

/// A watcher looks at a world before and behind each event, and may say octets of what was done.
pub trait Watch {
    /// What was said so far.
    ghost said: { Self → List ℕ };

    /// Which world and event it was shown last, before the event was tried.
    ghost saw: { Self → Shown };

    /// What may be said of an event that was done, by the worlds before and behind it.
    ghost says: { Sayings };

    /// What is said behind a round that has this number, from 1, and did so many events.
    ghost says_of_round: { ℕ → ℕ → List ℕ };

    /// Whether a call may want memory.
    ghost may_want: { Bool };

    /// Looks at a world before it tries an event. Nothing is said. Refused only for want of memory.
    fn before_event(&mut self, world: &World<'_>, event: &Event) -> Result<(), AllocError>
        ensures same { said self.new ≡ said self.old }
        ensures saw { OnOk result (saw self.new (plain_world world.now) event.now) }
        ensures err { OnErr result (may_want ≡ true) };

    /// Looks at a world behind an event that was done, and says something of the event. Refused only for want of
    /// memory.
    fn behind_event(&mut self, world: &World<'_>, event: &Event) -> Result<(), AllocError>
        ensures ok { OnOk result
            (SaysBehind (saw self.old) says event.now (plain_world world.now) (said self.old) (said self.new)) }
        ensures err { OnErr result (may_want ≡ true) };

    /// Says something of a round that did so many events, which are 1 at least. Refused only for want of memory.
    fn behind_round(&mut self, number: u32, count: usize) -> Result<(), AllocError>
        ensures ok { OnOk result (said self.new ≡ said self.old ++ says_of_round number count) }
        ensures err { OnErr result (may_want ≡ true) };
}

/// Nobody looks on: nothing is said, and nothing can be refused.
#[derive(Drop)]
pub(crate) struct Unwatched;

impl Watch for Unwatched {
    ghost said = { λ _. [] };

    ghost saw = { λ _ _ _. Unit {0} };

    ghost says = { λ _ _ _ text. text ≡ [] };

    ghost says_of_round = { λ _ _. [] };

    ghost may_want = { false };

    fn before_event(&mut self, _world: &World<'_>, _event: &Event) -> Result<(), AllocError> {
        Ok(())
    }

    fn behind_event(&mut self, _world: &World<'_>, _event: &Event) -> Result<(), AllocError> {
        Ok(())
    }

    fn behind_round(&mut self, _number: u32, _count: usize) -> Result<(), AllocError> {
        Ok(())
    }
}
