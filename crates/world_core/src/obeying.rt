//! Orders that are obeyed, event by event, while a watcher looks on.

ghost use Rattle.std.specs.Prelude.{◌≡◌, ◌∷◌, [], slice_get, Some, OnOk};
ghost use Rattle.ranked_policy.specs.Plans.{numbers};
ghost use Rattle.world_core.specs.declared.schedule.Event.TheVariants.{Put, Take, Handle, Decide, Advertise, Offer};
ghost use Rattle.world_core.specs.Orders.{with_peer, turn, round, second, repeated, events_of};
ghost use Rattle.world_core.specs.IdleTurns.{TurnsAreIdle, TurnsAreIdleBeside};
ghost use Rattle.world_core.specs.Steps.{IsPlaced};
ghost use Rattle.world_core.specs.Views.{ArePlaced, Obeys, KeepsPromises};
ghost use Rattle.world_core.specs.Watching.{WatchesEvents, WatchesRounds, WatchesOrder};

use crate::idle_turns::{is_marked, mark, no_marks};
use crate::laws::{played_worlds_keep_their_promises, steps_are_replayed};
use crate::schedule::{Event, Order, StepFault};
use crate::watch::{Unwatched, Watch};
use crate::world::World;
use ranked_policy::Asn;
use router_model::Stepped;
use router_model::laws::{answers_are_steps, linked_routers_are_peers};

impl<'a> World<'a> {
    /// Obeys an order: does its events one after the other, and passes over each that finds nothing to do.
    ///
    /// Refused as [`World::step`] refuses the first event that is refused; the events before it stay done,
    /// and none behind it is tried.
    pub fn obey(&mut self, order: &Order) -> Result<(), StepFault>
        ensures obeys { Obeys result self.old (events_of self.old.net order.now) self.new }
        ensures same { self.new.net ≡ self.old.net }
        ensures promises { KeepsPromises self.new }
    {
        self.obey_watched(order, &mut Unwatched)?;
        Ok(())
    }

    /// Obeys an order as [`World::obey`] does, while a watcher looks on: it sees each event that is tried, and each
    /// round. An event that is known to find nothing to do is not tried. Answers how many rounds did something, if a
    /// round did nothing; behind that one no other is tried.
    ///
    /// Refused as [`World::obey`] is, and with [`StepFault::Memory`] where the watcher is refused memory: then the event
    /// or the round that it looks at may be done.
    pub fn obey_watched<W: Watch>(
        &mut self,
        order: &Order,
        watcher: &mut W,
    ) -> Result<Option<u32>, StepFault>
        ensures watches { WatchesOrder W.says W.says_of_round W.may_want result self.old order.now (W.said watcher.old)
            self.new (W.said watcher.new) }
        ensures same { self.new.net ≡ self.old.net }
        ensures promises { KeepsPromises self.new }
    {
        played_worlds_keep_their_promises();
        let obeyed = self.follow(order, watcher);
        let _ = &self.state;
        obeyed
    }

    // Does the events of an order one after the other.
    fn follow<W: Watch>(&mut self, order: &Order, watcher: &mut W) -> Result<Option<u32>, StepFault>
        ensures watches { WatchesOrder W.says W.says_of_round W.may_want result self.old order.now (W.said watcher.old)
            self.new (W.said watcher.new) }
        ensures same { self.new.net ≡ self.old.net }
    {
        match *order {
            Order::One(event) => self.one(&event, watcher)?,
            Order::Rounds(times) => return self.rounds(times, watcher),
            Order::Ticks(times) => self.ticks(times, watcher)?,
        }
        Ok(None)
    }

    // Does so many rounds. Behind a round in which nothing was done, all others do nothing.
    fn rounds<W: Watch>(&mut self, times: u32, watcher: &mut W) -> Result<Option<u32>, StepFault>
        ensures watches { WatchesRounds W.says W.says_of_round W.may_want result self.old times (W.said watcher.old)
            self.new (W.said watcher.new) }
        ensures same { self.new.net ≡ self.old.net }
    {
        let mut marks = no_marks(*self.state.run.allocator(), self.network().routers().len());
        for passed in 0..times {
            let before = self.run().len();
            self.round(&mut marks, watcher)?;
            let after = self.run().len();
            if after == before {
                return Ok(Some(passed));
            }
            watcher.behind_round(passed + 1, after.saturating_sub(before))?;
        }
        Ok(None)
    }

    // Lets so many seconds pass.
    fn ticks<W: Watch>(&mut self, times: u32, watcher: &mut W) -> Result<(), StepFault>
        ensures watches { WatchesEvents W.says W.may_want result self.old (repeated times (second self.old.net))
            (W.said watcher.old) self.new (W.said watcher.new) }
        ensures same { self.new.net ≡ self.old.net }
    {
        for _ in 0..times {
            self.second(watcher)?;
        }
        Ok(())
    }

    // Gives each router a turn, rising, but for those that rest.
    fn round<W: Watch>(&mut self, marks: &mut Vec<bool>, watcher: &mut W) -> Result<(), StepFault>
        requires { TurnsAreIdle self.old marks.old.items }
        ensures watches { WatchesEvents W.says W.may_want result self.old (round self.old.net) (W.said watcher.old)
            self.new (W.said watcher.new) }
        ensures same { self.new.net ≡ self.old.net }
        ensures resting { OnOk result (TurnsAreIdle self.new marks.new.items) }
    {
        for (router_at, router) in self.network().routers().iter().enumerate() {
            self.visit(router_at, router.asn, marks, watcher)?;
        }
        Ok(())
    }

    // Gives the router at a place its turn, unless it rests: its last turn did nothing, and nothing was put towards it
    // since.
    fn visit<W: Watch>(
        &mut self,
        router_at: usize,
        number: Asn,
        marks: &mut Vec<bool>,
        watcher: &mut W,
    ) -> Result<(), StepFault>
        requires router { slice_get (numbers self.old.net.routers) router_at ≡ Some number }
        requires resting { TurnsAreIdle self.old marks.old.items }
        ensures watches { WatchesEvents W.says W.may_want result self.old (turn self.old.net number)
            (W.said watcher.old) self.new (W.said watcher.new) }
        ensures same { self.new.net ≡ self.old.net }
        ensures resting { OnOk result (TurnsAreIdle self.new marks.new.items) }
    {
        if is_marked(marks.as_slice(), router_at) {
            return Ok(());
        }
        let _ = &self.state;
        let before = self.run().len();
        self.turn(router_at, number, marks, watcher)?;
        if self.run().len() == before {
            mark(marks, router_at, true);
        }
        Ok(())
    }

    // Lets a second pass at each router, rising.
    fn second<W: Watch>(&mut self, watcher: &mut W) -> Result<(), StepFault>
        ensures watches { WatchesEvents W.says W.may_want result self.old (second self.old.net) (W.said watcher.old)
            self.new (W.said watcher.new) }
        ensures same { self.new.net ≡ self.old.net }
    {
        for (router_at, router) in self.network().routers().iter().enumerate() {
            self.watched(router_at, 0, &Event::Tick(router.asn), watcher)?;
        }
        Ok(())
    }

    // Does what the router at a place tries with each peer, rising, and then alone.
    fn turn<W: Watch>(
        &mut self,
        router_at: usize,
        number: Asn,
        marks: &mut Vec<bool>,
        watcher: &mut W,
    ) -> Result<(), StepFault>
        requires router { slice_get (numbers self.old.net.routers) router_at ≡ Some number }
        requires resting { TurnsAreIdleBeside self.old number marks.old.items }
        ensures watches { WatchesEvents W.says W.may_want result self.old (turn self.old.net number)
            (W.said watcher.old) self.new (W.said watcher.new) }
        ensures same { self.new.net ≡ self.old.net }
        ensures resting { OnOk result (TurnsAreIdleBeside self.new number marks.new.items) }
    {
        answers_are_steps();
        for peer_at in 0..self.state.pipes_at(router_at, number).len() {
            let peer = self.state.pipes_at(router_at, number)[peer_at].peer;
            self.exchange(router_at, number, peer_at, peer, marks, watcher)?;
        }
        self.alone(router_at, number, watcher)
    }

    // Does what the router at a place tries with the peer at a place. Nothing is tried if nothing waits between them.
    fn exchange<W: Watch>(
        &mut self,
        router_at: usize,
        number: Asn,
        peer_at: usize,
        peer: Asn,
        marks: &mut Vec<bool>,
        watcher: &mut W,
    ) -> Result<(), StepFault>
        requires placed { ArePlaced self.old.net number peer router_at peer_at }
        requires resting { TurnsAreIdleBeside self.old number marks.old.items }
        ensures watches { WatchesEvents W.says W.may_want result self.old (with_peer number peer) (W.said watcher.old)
            self.new (W.said watcher.new) }
        ensures same { self.new.net ≡ self.old.net }
        ensures resting { OnOk result (TurnsAreIdleBeside self.new number marks.new.items) }
    {
        answers_are_steps();
        linked_routers_are_peers();
        if self.state.link_is_idle_at(router_at, peer_at, number, peer) {
            return Ok(());
        }
        self.put(router_at, number, peer_at, peer, marks, watcher)?;
        self.watched(router_at, peer_at, &Event::Take(number, peer), watcher)?;
        self.watched(router_at, peer_at, &Event::Handle(number, peer), watcher)
    }

    // Lets the router at a place put the next item towards the peer at a place, if there is one. The peer then rests no
    // longer.
    fn put<W: Watch>(
        &mut self,
        router_at: usize,
        number: Asn,
        peer_at: usize,
        peer: Asn,
        marks: &mut Vec<bool>,
        watcher: &mut W,
    ) -> Result<(), StepFault>
        requires placed { ArePlaced self.old.net number peer router_at peer_at }
        requires resting { TurnsAreIdleBeside self.old number marks.old.items }
        ensures watches { WatchesEvents W.says W.may_want result self.old (Put number peer ∷ []) (W.said watcher.old)
            self.new (W.said watcher.new) }
        ensures same { self.new.net ≡ self.old.net }
        ensures resting { OnOk result (TurnsAreIdleBeside self.new number marks.new.items) }
    {
        answers_are_steps();
        linked_routers_are_peers();
        let (router, _) = self.state.back_at(router_at, peer_at, number, peer);
        let before = self.run().len();
        self.watched(router_at, peer_at, &Event::Put(number, peer), watcher)?;
        if self.run().len() != before {
            mark(marks, router, false);
        }
        Ok(())
    }

    // Lets the router at a place decide, tell and offer, each once. Nothing is tried if it has nothing to do.
    fn alone<W: Watch>(
        &mut self,
        router_at: usize,
        number: Asn,
        watcher: &mut W,
    ) -> Result<(), StepFault>
        requires { slice_get (numbers self.old.net.routers) router_at ≡ Some number }
        ensures watches { WatchesEvents W.says W.may_want result self.old
            (Decide number ∷ Advertise number ∷ Offer number ∷ []) (W.said watcher.old) self.new (W.said watcher.new) }
        ensures same { self.new.net ≡ self.old.net }
    {
        if self.state.routers[router_at].is_idle() {
            return Ok(());
        }
        self.watched(router_at, 0, &Event::Decide(number), watcher)?;
        self.watched(router_at, 0, &Event::Advertise(number), watcher)?;
        self.watched(router_at, 0, &Event::Offer(number), watcher)
    }

    // Does one event.
    fn one<W: Watch>(&mut self, event: &Event, watcher: &mut W) -> Result<(), StepFault>
        ensures watches { WatchesEvents W.says W.may_want result self.old (event.now ∷ []) (W.said watcher.old)
            self.new (W.said watcher.new) }
        ensures same { self.new.net ≡ self.old.net }
    {
        let (router_at, peer_at) = self.state.places(event)?;
        self.watched(router_at, peer_at, event, watcher)
    }

    // Does an event of the router at a place, with the peer at a place if it names one, while a watcher looks on.
    fn watched<W: Watch>(
        &mut self,
        router_at: usize,
        peer_at: usize,
        event: &Event,
        watcher: &mut W,
    ) -> Result<(), StepFault>
        requires { IsPlaced self.old.net event.now router_at peer_at }
        ensures watches { WatchesEvents W.says W.may_want result self.old (event.now ∷ []) (W.said watcher.old)
            self.new (W.said watcher.new) }
        ensures same { self.new.net ≡ self.old.net }
    {
        steps_are_replayed();
        watcher.before_event(self, event)?;
        match self.state.step_at(router_at, peer_at, event)? {
            Stepped::Did => watcher.behind_event(self, event)?,
            Stepped::Nothing => {}
        }
        Ok(())
    }
}
