//! One session: its attributes and its timers.

ghost use Rattle.std.specs.Prelude.{◌≡◌};
ghost use Rattle.session_fsm.specs.Table.{SessionView, opening, IsGoodEvent, on_event, kept_alive};
ghost use Rattle.bgp_values.specs.Ranges.{IsHoldTime};
ghost use Rattle.session_fsm.specs.Timers.{ticked, runs_out};
ghost use Rattle.session_fsm.specs.declared.state.State.TheVariants.{Established};

mod table;

use crate::actions::Actions;
use crate::config::SessionConfig;
use crate::event::FsmEvent;
use crate::state::State;
use std::marker::Model;

/// The session of a router with one peer.
#[derive(Clone, Copy, Debug, PartialEq, Eq)]
pub struct Session {
    config: SessionConfig,
    state: State,
    hold_time: u16,
    connect_retry_timer: u16,
    hold_timer: u16,
    keepalive_timer: u16,
    restart_timer: u16,
}

impl Model for Session {
    ghost use Rattle.session_fsm.specs.Table.{SessionView};

    ghost Value = { SessionView };

    ghost view = { λ a. record { config = a.config; state = a.state; hold_time = a.hold_time; connect_retry_timer = a.connect_retry_timer; hold_timer = a.hold_timer; keepalive_timer = a.keepalive_timer; restart_timer = a.restart_timer } };

    ghost inverse = { λ d. record { config = d.config; state = d.state; hold_time = d.hold_time; connect_retry_timer = d.connect_retry_timer; hold_timer = d.hold_timer; keepalive_timer = d.keepalive_timer; restart_timer = d.restart_timer } };
}

impl Session {
    /// A session in Idle, with all timers stopped. Its hold time has to pass `bgp_values::is_hold_time`.
    pub fn new(config: SessionConfig) -> Session
        requires { IsHoldTime config.hold }
        ensures { result ≡ opening config }
    {
        Session {
            config,
            state: State::Idle,
            hold_time: 0,
            connect_retry_timer: 0,
            hold_timer: 0,
            keepalive_timer: 0,
            restart_timer: 0,
        }
    }

    /// The state.
    pub fn state(&self) -> State
        ensures { result ≡ self.now.state }
    {
        self.state
    }

    /// The seconds left of its ConnectRetryTimer, 0 if it is stopped (RFC 4271 section 8).
    pub fn connect_retry_timer(&self) -> u16
        ensures { result ≡ self.now.connect_retry_timer }
    {
        self.connect_retry_timer
    }

    /// The seconds left of its HoldTimer, 0 if it is stopped (RFC 4271 section 8).
    pub fn hold_timer(&self) -> u16
        ensures { result ≡ self.now.hold_timer }
    {
        self.hold_timer
    }

    /// The seconds left of its KeepaliveTimer, 0 if it is stopped (RFC 4271 section 8).
    pub fn keepalive_timer(&self) -> u16
        ensures { result ≡ self.now.keepalive_timer }
    {
        self.keepalive_timer
    }

    /// The seconds left of its RestartTimer, by which a session that closed starts again, 0 if it is stopped.
    pub fn restart_timer(&self) -> u16
        ensures { result ≡ self.now.restart_timer }
    {
        self.restart_timer
    }

    /// The settings that it was made with.
    pub fn config(&self) -> SessionConfig
        ensures { result ≡ self.now.config }
    {
        self.config
    }

    /// Takes an event, and answers what the router is to do (RFC 4271 section 8.2.2).
    pub fn on(&mut self, event: FsmEvent) -> Actions
        requires { IsGoodEvent event }
        ensures session { self.new ≡ (on_event self.old event).session }
        ensures actions { result ≡ (on_event self.old event).actions }
    {
        match self.state {
            State::Idle => self.on_idle(event),
            State::Connect => self.on_connect(event),
            State::Active => self.on_active(event),
            State::OpenSent => self.on_open_sent(event),
            State::OpenConfirm => self.on_open_confirm(event),
            State::Established => self.on_established(event),
        }
    }

    /// Lets a second pass, and answers the event of the timer that runs out, if one does. The caller gives the event to
    /// `on`. If the HoldTimer and the KeepaliveTimer run out together, only the HoldTimer's event comes.
    pub fn tick(&mut self) -> Option<FsmEvent>
        ensures event { result ≡ runs_out self.old }
        ensures session { self.new ≡ ticked self.old }
    {
        let event = if self.hold_timer == 1 {
            Some(FsmEvent::HoldTimerExpires)
        } else if self.keepalive_timer == 1 {
            Some(FsmEvent::KeepaliveTimerExpires)
        } else if self.connect_retry_timer == 1 {
            Some(FsmEvent::ConnectRetryTimerExpires)
        } else if self.restart_timer == 1 {
            Some(FsmEvent::AutomaticStart)
        } else {
            None
        };
        self.connect_retry_timer = self.connect_retry_timer.saturating_sub(1);
        self.hold_timer = self.hold_timer.saturating_sub(1);
        self.keepalive_timer = self.keepalive_timer.saturating_sub(1);
        self.restart_timer = self.restart_timer.saturating_sub(1);
        event
    }

    /// Takes note of an UPDATE that was sent: the next KEEPALIVE is due a third of the hold time from now.
    pub fn update_sent(&mut self)
        requires { self.old.state ≡ Established }
        ensures { self.new ≡ kept_alive self.old }
    {
        self.keepalive_timer = self.hold_time / 3;
    }
}
