//! A world: a network of routers that does what a schedule names.

ghost use Rattle.std.specs.Prelude.{◌≡◌, map, Some, IfOk, IfErr, MatchOption};
ghost use Rattle.world_core.specs.declared.schedule.StepFault.TheVariants.{Memory};
ghost use Rattle.snap_collector.specs.Collecting.{member_of};
ghost use Rattle.snap_collector.specs.Collector.{AreMembers};
ghost use Rattle.world_core.specs.Verdicts.{members_of, JudgesItsRuns, SettledCanBeBelieved};
ghost use Rattle.world_core.specs.Views.{Opens, Answers, ComesOut, KeepsPromises, IsNoRouter, IsRouterOf, comes_next, NothingComes};

use crate::laws::{
    collectors_judge_their_runs, members_are_the_routers, played_worlds_keep_their_promises,
    steps_are_replayed,
};
use crate::opening::opening;
use crate::schedule::{Event, StepFault};
use crate::state::State;
use outbox::Item;
use ranked_policy::{Asn, Network};
use router_core::Router;
use router_model::Stepped;
use router_runs::snapshots_of_runs;
use snap_collector::Collector;
use std::alloc::Global;
use std::marker::Model;

/// A network of routers that does what a schedule names, with the pipes between its routers and the
/// offers that they made.
#[derive(Drop)]
pub struct World<'a> {
    pub(crate) state: State<'a>,
}

impl<'a> Model for World<'a> {
    ghost use Rattle.world_core.specs.Views.{WorldView, IsWhole, ComesOut};
    ghost use Rattle.world_core.specs.Steps.{view_of};

    ghost Value = { WorldView };

    ghost view = { λ w. view_of w.state };

    ghost invariant = { λ w. IsWhole (view_of w.state) × ComesOut (view_of w.state) };
}

impl<'a> World<'a> {
    /// A world in which nothing was done. Refused only with [`StepFault::Memory`].
    pub fn new(alloc: Global, network: &'a Network) -> Result<World<'a>, StepFault>
        ensures opens { IfOk result (Opens network.now) }
        ensures promises { IfOk result KeepsPromises }
        ensures only { IfErr result (λ why. why ≡ Memory) }
    {
        played_worlds_keep_their_promises();
        let state = opening(alloc, network)?;
        Ok(World { state })
    }

    /// Does one event. It answers `Nothing` if the router had nothing to do: an empty outbox or pipe, or nothing to
    /// handle, decide, tell or offer. It answers `Nothing` too if all outboxes that wait are full
    /// ([`RouterError::Blocked`](router_model::RouterError::Blocked)), or if a message waits to be handled before the
    /// next item is taken ([`RouterError::Held`](router_model::RouterError::Held)).
    ///
    /// Refused with [`StepFault::NoSuchRouter`], [`StepFault::NoSuchLink`], [`StepFault::Refused`] and any other
    /// refusal of the router, and with [`StepFault::Memory`] if a growth is refused; then the world is as it was.
    pub fn step(&mut self, event: &Event) -> Result<Stepped, StepFault>
        ensures answers { Answers result self.old event.now self.new }
        ensures same { self.new.net ≡ self.old.net }
        ensures promises { KeepsPromises self.new }
    {
        steps_are_replayed();
        played_worlds_keep_their_promises();
        self.state.step(event)
    }

    /// The router with this number, if the network has one.
    pub fn router(&self, number: Asn) -> Option<&Router<'a>>
        ensures { MatchOption result (IsNoRouter self.now number) (λ router. IsRouterOf self.now number router.now) }
    {
        self.state.router(number)
    }

    /// The item that a router takes next from a peer: the oldest that the peer put and the router did not take. `None`
    /// if there is none, or if no link joins the two.
    pub fn next_to_take(&self, number: Asn, peer: Asn) -> Option<&Item>
        ensures { MatchOption result (NothingComes self.now number peer)
            (λ item. comes_next self.now number peer ≡ Some item.now) }
    {
        self.state.next_to_take(number, peer)
    }

    /// The network.
    pub fn network(&self) -> &'a Network
        ensures { result.now ≡ self.now.net }
    {
        self.state.network
    }

    /// The events that were done, the first first.
    pub fn run(&self) -> &[Event]
        ensures { result.now ≡ self.now.run }
    {
        self.state.run.as_slice()
    }

    /// The events that were done, the first first. The world is dropped; the events lead to it again. It takes no
    /// memory.
    pub fn into_run(self) -> Vec<Event>
        ensures value { result.items ≡ self.entry.run }
        ensures comes { ComesOut self.entry }
    {
        self.state.run
    }

    /// The collector of the offers that were made. Its outcomes are those of the run that the world stands at the end
    /// of. The parts of a snapshot that it judges settled are a stable path assignment, recorded in a consistent cut,
    /// and stay while the run is quiet.
    pub fn collector(&self) -> &Collector
        ensures value { result.now ≡ self.now.collector }
        ensures members { AreMembers self.now.net result.now.members }
        ensures peers { map member_of result.now.members ≡ members_of self.now.net }
        ensures verdicts { JudgesItsRuns self.now }
        ensures settled { SettledCanBeBelieved self.now }
    {
        members_are_the_routers();
        collectors_judge_their_runs();
        snapshots_of_runs();
        &self.state.collector
    }
}
