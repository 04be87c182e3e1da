//! The state of a world, and how each event changes it.

ghost use Rattle.std.specs.Prelude.{◌≡◌, map, MatchOption, Some, true};
ghost use Rattle.world_core.specs.declared.schedule.Event.TheVariants.{Offer};
ghost use Rattle.router_model.specs.Settings.{peers};
ghost use Rattle.router_core.specs.Calling.{call_of};
ghost use Rattle.world_core.specs.Views.{IsWhole, IsNoRouter, IsRouterOf, comes_next, NothingComes};
ghost use Rattle.world_core.specs.Steps.{view_of, Leaves, StepsTo, Asks, StandsAt, LinkAt, IsPlaceOf, FindsLink, IsPlaced, FindsPlaces, LinkIsIdle};

use crate::inbox::{Inbox, Pipe, place_of};
use crate::logged_calls::{enter_offer, enter_put, enter_take, log_answer};
use crate::schedule::{Event, StepFault};
use outbox::Item;
use ranked_policy::{Asn, Network};
use router_core::{Call, Router};
use router_model::Stepped;
use router_model::laws::{answers_are_steps, linked_routers_are_peers};
use snap_collector::Collector;

/// The state of a world.
#[derive(Drop)]
pub(crate) struct State<'a> {
    pub network: &'a Network,
    // By rising number.
    pub routers: Vec<Router<'a>>,
    // By rising number of the router that they lead to.
    pub inboxes: Vec<Inbox>,
    pub collector: Collector,
    // The stamp of the last offer.
    pub board: u64,
    pub run: Vec<Event>,
}

impl<'a> State<'a> {
    // The place of a router.
    fn place(&self, number: Asn) -> Result<usize, StepFault>
        requires { IsWhole (view_of self.now) }
        ensures { IsPlaceOf result (view_of self.now) number }
    {
        match self.network.place(number) {
            Some(router_at) => Ok(router_at),
            None => Err(StepFault::NoSuchRouter),
        }
    }

    // Makes a call, which touches no pipe, of the router at a place.
    fn ask_at(
        &mut self,
        router_at: usize,
        event: &Event,
        number: Asn,
        call: &Call,
    ) -> Result<Stepped, StepFault>
        requires { StandsAt (view_of self.old) number router_at }
        ensures { Leaves (Asks result (view_of self.old) number event.now (call_of call.now) (view_of self.new))
            (view_of self.old) (view_of self.new) }
    {
        answers_are_steps();
        let room = self.run.reserve(1);
        let called = self.routers[router_at].perform(call, room);
        log_answer(&mut self.run, event, called)
    }

    // The place of a router, and that of the pipe from a peer among those that lead to it.
    fn link(&self, number: Asn, peer: Asn) -> Result<(usize, usize), StepFault>
        requires { IsWhole (view_of self.now) }
        ensures { FindsLink result (view_of self.now) number peer }
    {
        linked_routers_are_peers();
        let router_at = self.place(number)?;
        self.place(peer)?;
        match place_of(self.inboxes[router_at].pipes.as_slice(), peer) {
            Some(pipe) => Ok((router_at, pipe)),
            None => Err(StepFault::NoSuchLink),
        }
    }

    /// The place of a peer, and that of the pipe from a router to it. The router and the pipe from the peer stand at the
    /// places given.
    pub fn back_at(&self, router_at: usize, pipe: usize, number: Asn, peer: Asn) -> (usize, usize)
        requires { LinkAt (view_of self.now) number peer router_at pipe }
        ensures { LinkAt (view_of self.now) peer number result.0 result.1 }
    {
        linked_routers_are_peers();
        let pipe = &self.inboxes[router_at].pipes[pipe];
        (pipe.router, pipe.back)
    }

    // Lets the router at a place make the offer that waits in front.
    fn offer_at(&mut self, router_at: usize, number: Asn) -> Result<Stepped, StepFault>
        requires { StandsAt (view_of self.old) number router_at }
        ensures { StepsTo result (view_of self.old) (Offer number) (view_of self.new) }
    {
        let event = Event::Offer(number);
        enter_offer(
            &mut self.routers[router_at],
            &mut self.run,
            &mut self.collector,
            &mut self.board,
            &event,
        )
    }

    /// The pipes that lead to the router at a place, by rising peer.
    pub fn pipes_at(&self, router_at: usize, number: Asn) -> &[Pipe]
        requires { StandsAt (view_of self.now) number router_at }
        ensures { map (λ p. p.peer) result.now ≡ peers (view_of self.now).net number }
    {
        self.inboxes[router_at].pipes.as_slice()
    }

    /// Whether nothing has to be put, taken or handled between a router and a peer. The router and the pipe from the
    /// peer stand at these places.
    pub fn link_is_idle_at(&self, router_at: usize, pipe: usize, number: Asn, peer: Asn) -> bool
        requires { LinkAt (view_of self.now) number peer router_at pipe }
        ensures { result ≡ true → LinkIsIdle (view_of self.now) number peer }
    {
        match self.inboxes[router_at].pipes[pipe].items.front() {
            None => self.routers[router_at].link_is_idle_at(pipe, peer),
            Some(_) => false,
        }
    }

    /// The item that a router takes next from a peer, if one is on its way.
    pub fn next_to_take(&self, number: Asn, peer: Asn) -> Option<&Item>
        requires { IsWhole (view_of self.now) }
        ensures { MatchOption result (NothingComes (view_of self.now) number peer)
            (λ item. comes_next (view_of self.now) number peer ≡ Some item.now) }
    {
        let Ok((router_at, pipe)) = self.link(number, peer) else {
            return None;
        };
        self.inboxes[router_at].pipes[pipe].items.front()
    }

    /// The place of the router that does an event, and that of the pipe from the peer, if the event names one.
    pub fn places(&self, event: &Event) -> Result<(usize, usize), StepFault>
        requires { IsWhole (view_of self.now) }
        ensures { FindsPlaces result (view_of self.now) event.now }
    {
        match event.peer() {
            Some(peer) => self.link(event.router(), peer),
            None => Ok((self.place(event.router())?, 0)),
        }
    }

    /// Does one event. The router, and the pipe from the peer that it names, stand at these places.
    pub fn step_at(
        &mut self,
        router_at: usize,
        pipe: usize,
        event: &Event,
    ) -> Result<Stepped, StepFault>
        requires whole { IsWhole (view_of self.old) }
        requires placed { IsPlaced (view_of self.old).net event.now router_at pipe }
        ensures { StepsTo result (view_of self.old) event.now (view_of self.new) }
    {
        answers_are_steps();
        linked_routers_are_peers();
        match *event {
            Event::Command(number, command) => {
                self.ask_at(router_at, event, number, &Call::Obey(command))
            }
            Event::Tick(number) => self.ask_at(router_at, event, number, &Call::Tick),
            Event::Put(number, peer) => {
                let (to, into) = self.back_at(router_at, pipe, number, peer);
                let items = &mut self.inboxes[to].pipes[into].items;
                let router = &mut self.routers[router_at];
                enter_put(router, &mut self.run, items, event, pipe, peer)
            }
            Event::Take(_, peer) => {
                let items = &mut self.inboxes[router_at].pipes[pipe].items;
                let router = &mut self.routers[router_at];
                enter_take(router, &mut self.run, items, event, pipe, peer)
            }
            Event::Handle(_, peer) => {
                let room = self.run.reserve(1);
                let called = self.routers[router_at].handle_at(pipe, peer, room);
                log_answer(&mut self.run, event, called)
            }
            Event::Decide(number) => self.ask_at(router_at, event, number, &Call::Decide),
            Event::Advertise(number) => self.ask_at(router_at, event, number, &Call::Advertise),
            Event::Offer(number) => self.offer_at(router_at, number),
        }
    }

    /// Does one event.
    pub fn step(&mut self, event: &Event) -> Result<Stepped, StepFault>
        requires { IsWhole (view_of self.old) }
        ensures { StepsTo result (view_of self.old) event.now (view_of self.new) }
    {
        let (router_at, pipe) = self.places(event)?;
        self.step_at(router_at, pipe, event)
    }

    /// The router with this number, if the network has one.
    pub fn router(&self, number: Asn) -> Option<&Router<'a>>
        requires { IsWhole (view_of self.now) }
        ensures { MatchOption result (IsNoRouter (view_of self.now) number)
            (λ router. IsRouterOf (view_of self.now) number router.now) }
    {
        match self.place(number) {
            Ok(router_at) => Some(&self.routers[router_at]),
            Err(_) => None,
        }
    }
}
