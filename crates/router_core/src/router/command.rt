//! Commands to a router.

ghost use Rattle.router_model.specs.Calls.{Obey};
ghost use Rattle.router_model.specs.declared.command.Command as commands;
ghost use Rattle.router_model.specs.declared.command.Command.TheVariants.{Originate, Withdraw};
ghost use Rattle.router_core.specs.Views.{IsSame, Answers};
ghost use Rattle.router_core.specs.Calling.{call_of, NeedsRoom};
ghost use Rattle.router_core.specs.ToAll.{IsCommanded};

use super::carry::{SessionEvent, drafted};
use super::{Call, Router, next_stamp_with_room};
use prefix_lanes::Prefix;
use ranked_policy::Asn;
use router_model::{Command, RouterError, Stepped};
use router_side::laws::sessions_keep_fresh;
use std::alloc::AllocError;

impl Router<'_> {
    /// Obeys a command. There is nothing to do if a prefix to originate is originated already, or one to withdraw is
    /// not.
    ///
    /// Refused with [`RouterError::NoSuchPeer`], [`RouterError::NotOrigin`], [`RouterError::OldSnapshot`],
    /// [`RouterError::StampEnd`], [`RouterError::EpochEnd`], and with [`RouterError::Memory`] if a growth is refused;
    /// then all is as it was.
    pub fn command(&mut self, command: Command) -> Result<Stepped, RouterError>
        ensures answers { Answers result self.old (Obey command) self.new }
        ensures same { IsSame self.old self.new }
    {
        self.perform(&Call::Obey(command), Ok(()))
    }

    /// Makes one call of the router, but for puts and takes of items, by the method of its name. Refused as that method
    /// is; then all is as it was.
    ///
    /// `room` says whether the caller has room for the event if the call steps. Without room, a step is refused with
    /// [`RouterError::Memory`]; any other answer is as it would be.
    pub fn perform(
        &mut self,
        call: &Call,
        room: Result<(), AllocError>,
    ) -> Result<Stepped, RouterError>
        ensures answers { Answers result self.old (call_of call.now) self.new }
        ensures full { NeedsRoom result room }
        ensures same { IsSame self.old self.new }
    {
        match *call {
            Call::Obey(Command::Start(peer)) => self.command_peer(peer, SessionEvent::Start, room),
            Call::Obey(Command::Stop(peer)) => self.command_peer(peer, SessionEvent::Stop, room),
            Call::Obey(Command::Reset(peer)) => self.command_peer(peer, SessionEvent::Reset, room),
            Call::Obey(Command::Originate(prefix)) => self.originate(&prefix, room),
            Call::Obey(Command::Withdraw(prefix)) => self.withdraw(&prefix, room),
            Call::Obey(Command::Snapshot(number)) => self.snapshot(number, room),
            Call::Obey(Command::Restart) => self.restart(room),
            Call::Tick => self.tick_with_room(room),
            Call::Handle(peer) => self.handle_with_room(peer, room),
            Call::Decide => self.decide_with_room(room),
            Call::Advertise => self.advertise_with_room(room),
        }
    }

    // Obeys a command to the session with a peer.
    fn command_peer(
        &mut self,
        peer: Asn,
        event: SessionEvent,
        room: Result<(), AllocError>,
    ) -> Result<Stepped, RouterError>
        ensures answers { (command : commands.Command) → IsCommanded event peer command
            → Answers result self.old (Obey command) self.new }
        ensures full { NeedsRoom result room }
        ensures same { IsSame self.old self.new }
    {
        sessions_keep_fresh();
        let Some(peer_at) = self.find(peer) else {
            return Err(RouterError::NoSuchPeer);
        };
        let made = drafted(event, &self.peers[peer_at].side, &self.own_open);
        let stamp = self.stamp + 1;
        self.carry_out(peer, peer_at, &made, stamp, room)
    }

    // Originates a prefix from now on.
    fn originate(
        &mut self,
        prefix: &Prefix,
        room: Result<(), AllocError>,
    ) -> Result<Stepped, RouterError>
        ensures answers { Answers result self.old (Obey (Originate prefix.now)) self.new }
        ensures full { NeedsRoom result room }
        ensures same { IsSame self.old self.new }
    {
        if !self.network.is_origin(self.number, prefix) {
            return Err(RouterError::NotOrigin);
        }
        if self.tables.is_originated(prefix) {
            return Ok(Stepped::Nothing);
        }
        let stamp = next_stamp_with_room(self.stamp, room)?;
        self.tables.originate(prefix);
        self.stamp = stamp;
        Ok(Stepped::Did)
    }

    // Originates a prefix no longer.
    fn withdraw(
        &mut self,
        prefix: &Prefix,
        room: Result<(), AllocError>,
    ) -> Result<Stepped, RouterError>
        ensures answers { Answers result self.old (Obey (Withdraw prefix.now)) self.new }
        ensures full { NeedsRoom result room }
        ensures same { IsSame self.old self.new }
    {
        if !self.network.is_origin(self.number, prefix) {
            return Err(RouterError::NotOrigin);
        }
        if !self.tables.is_originated(prefix) {
            return Ok(Stepped::Nothing);
        }
        let stamp = next_stamp_with_room(self.stamp, room)?;
        self.tables.withdraw(prefix);
        self.stamp = stamp;
        Ok(Stepped::Did)
    }
}
