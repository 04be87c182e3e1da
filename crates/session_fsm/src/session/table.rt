//! The session table of RFC 4271 section 8.2.2: a function a state, a line a row.

ghost use Rattle.std.specs.Prelude.{◌≡◌, ◌≤◌, [], length};
ghost use Rattle.session_fsm.specs.Table.{on_idle, on_connect, on_active, on_open_sent, on_open_confirm, on_established, stopped, closed, dialling, starting, retrying, sent_open, held, kept_alive, agreed, established};

use super::Session;
use crate::actions::Action::{
    Act, Dial, Down, HangUp, SendAlive, SendGiven, SendNotice, SendOpen, Up,
};
use crate::actions::{Action, Actions};
use crate::event::FsmEvent;
use crate::event::FsmEvent::{
    AutomaticStart, BgpHeaderErr, BgpOpen, BgpOpenMsgErr, ConnectRetryTimerExpires,
    HoldTimerExpires, KeepAliveMsg, KeepaliveTimerExpires, ManualStart, ManualStop, NotifMsg,
    NotifMsgVerErr, TcpConnectionConfirmed, TcpConnectionFails, TcpCrAcked, UpdateMsg,
    UpdateMsgErr,
};
use crate::state::State;
use bgp_values::{CEASE, FSM_ERROR, HOLD_TIMER_EXPIRED};

/// Seconds until a dial is tried again (RFC 4271 section 10).
const CONNECT_RETRY_TIME: u16 = 120;

/// Seconds within which the peer's OPEN has to come (RFC 4271 section 8.2.2).
const LARGE_HOLD_TIME: u16 = 240;

impl Session {
    #[rattlefmt::skip]
    pub(super) fn on_idle(&mut self, event: FsmEvent) -> Actions
        ensures session { self.new ≡ (on_idle self.old event).session }
        ensures actions { result ≡ (on_idle self.old event).actions }
    {
        match event {
            ManualStart | AutomaticStart => self.start(&[Dial]),
            ManualStop => self.stay_stopped(),

            ConnectRetryTimerExpires | HoldTimerExpires | KeepaliveTimerExpires => Actions::of(&[]),
            TcpCrAcked | TcpConnectionConfirmed | TcpConnectionFails => Actions::of(&[]),
            BgpOpen { hold: _ } | BgpHeaderErr | BgpOpenMsgErr | NotifMsgVerErr | NotifMsg => Actions::of(&[]),
            KeepAliveMsg | UpdateMsg | UpdateMsgErr => Actions::of(&[]),
        }
    }

    #[rattlefmt::skip]
    pub(super) fn on_connect(&mut self, event: FsmEvent) -> Actions
        ensures session { self.new ≡ (on_connect self.old event).session }
        ensures actions { result ≡ (on_connect self.old event).actions }
    {
        match event {
            TcpCrAcked | TcpConnectionConfirmed => self.wait_for_open(&[SendOpen]),
            ConnectRetryTimerExpires => self.dial_again(&[HangUp, Dial]),
            ManualStart | AutomaticStart => Actions::of(&[]),

            ManualStop => self.stop(&[HangUp]),
            HoldTimerExpires | KeepaliveTimerExpires | TcpConnectionFails => self.close(&[HangUp]),
            BgpOpen { hold: _ } | BgpHeaderErr | BgpOpenMsgErr | NotifMsgVerErr | NotifMsg => self.close(&[HangUp]),
            KeepAliveMsg | UpdateMsg | UpdateMsgErr => self.close(&[HangUp]),
        }
    }

    #[rattlefmt::skip]
    pub(super) fn on_active(&mut self, event: FsmEvent) -> Actions
        ensures session { self.new ≡ (on_active self.old event).session }
        ensures actions { result ≡ (on_active self.old event).actions }
    {
        match event {
            TcpCrAcked | TcpConnectionConfirmed => self.wait_for_open(&[SendOpen]),
            ConnectRetryTimerExpires => self.dial_again(&[Dial]),
            ManualStart | AutomaticStart => Actions::of(&[]),

            ManualStop => self.stop(&[HangUp]),
            HoldTimerExpires | KeepaliveTimerExpires | TcpConnectionFails => self.close(&[HangUp]),
            BgpOpen { hold: _ } | BgpHeaderErr | BgpOpenMsgErr | NotifMsgVerErr | NotifMsg => self.close(&[HangUp]),
            KeepAliveMsg | UpdateMsg | UpdateMsgErr => self.close(&[HangUp]),
        }
    }

    #[rattlefmt::skip]
    pub(super) fn on_open_sent(&mut self, event: FsmEvent) -> Actions
        ensures session { self.new ≡ (on_open_sent self.old event).session }
        ensures actions { result ≡ (on_open_sent self.old event).actions }
    {
        match event {
            BgpOpen { hold } => self.agree(hold, &[SendAlive]),
            TcpConnectionFails => self.wait_to_retry(&[HangUp]),
            ManualStart | AutomaticStart | TcpCrAcked | TcpConnectionConfirmed => Actions::of(&[]),

            ManualStop => self.stop(&[SendNotice(CEASE), HangUp]),
            HoldTimerExpires => self.close(&[SendNotice(HOLD_TIMER_EXPIRED), HangUp]),
            BgpHeaderErr | BgpOpenMsgErr => self.close(&[SendGiven, HangUp]),
            NotifMsgVerErr => self.close(&[HangUp]),
            ConnectRetryTimerExpires | KeepaliveTimerExpires => self.close(&[SendNotice(FSM_ERROR), HangUp]),
            NotifMsg | KeepAliveMsg | UpdateMsg | UpdateMsgErr => self.close(&[SendNotice(FSM_ERROR), HangUp]),
        }
    }

    #[rattlefmt::skip]
    pub(super) fn on_open_confirm(&mut self, event: FsmEvent) -> Actions
        ensures session { self.new ≡ (on_open_confirm self.old event).session }
        ensures actions { result ≡ (on_open_confirm self.old event).actions }
    {
        match event {
            KeepAliveMsg => self.establish(&[Up]),
            KeepaliveTimerExpires => self.keep_alive(&[SendAlive]),
            ManualStart | AutomaticStart | TcpCrAcked | TcpConnectionConfirmed => Actions::of(&[]),

            ManualStop => self.stop(&[SendNotice(CEASE), HangUp]),
            HoldTimerExpires => self.close(&[SendNotice(HOLD_TIMER_EXPIRED), HangUp]),
            BgpHeaderErr | BgpOpenMsgErr => self.close(&[SendGiven, HangUp]),
            TcpConnectionFails | NotifMsgVerErr | NotifMsg => self.close(&[HangUp]),
            ConnectRetryTimerExpires | BgpOpen { hold: _ } => self.close(&[SendNotice(FSM_ERROR), HangUp]),
            UpdateMsg | UpdateMsgErr => self.close(&[SendNotice(FSM_ERROR), HangUp]),
        }
    }

    #[rattlefmt::skip]
    pub(super) fn on_established(&mut self, event: FsmEvent) -> Actions
        ensures session { self.new ≡ (on_established self.old event).session }
        ensures actions { result ≡ (on_established self.old event).actions }
    {
        match event {
            KeepAliveMsg => self.hold(&[]),
            UpdateMsg => self.hold(&[Act]),
            KeepaliveTimerExpires => self.keep_alive(&[SendAlive]),
            ManualStart | AutomaticStart | TcpCrAcked | TcpConnectionConfirmed => Actions::of(&[]),

            ManualStop => self.stop(&[SendNotice(CEASE), Down, HangUp]),
            HoldTimerExpires => self.close(&[SendNotice(HOLD_TIMER_EXPIRED), Down, HangUp]),
            BgpHeaderErr | UpdateMsgErr => self.close(&[SendGiven, Down, HangUp]),
            TcpConnectionFails | NotifMsgVerErr | NotifMsg => self.close(&[Down, HangUp]),
            ConnectRetryTimerExpires | BgpOpen { hold: _ } => self.close(&[SendNotice(FSM_ERROR), Down, HangUp]),
            BgpOpenMsgErr => self.close(&[SendNotice(FSM_ERROR), Down, HangUp]),
        }
    }

    /// Goes to Idle, with all timers stopped: nothing happens by itself.
    fn stop(&mut self, actions: &[Action]) -> Actions
        requires { length actions.now ≤ 4 }
        ensures session { self.new ≡ stopped self.old }
        ensures actions { result ≡ actions.now }
    {
        self.state = State::Idle;
        self.connect_retry_timer = 0;
        self.hold_timer = 0;
        self.keepalive_timer = 0;
        self.restart_timer = 0;
        Actions::of(actions)
    }

    /// Goes to Idle, until the RestartTimer runs out.
    fn close(&mut self, actions: &[Action]) -> Actions
        requires { length actions.now ≤ 4 }
        ensures session { self.new ≡ closed self.old }
        ensures actions { result ≡ actions.now }
    {
        self.state = State::Idle;
        self.connect_retry_timer = 0;
        self.hold_timer = 0;
        self.keepalive_timer = 0;
        self.restart_timer = self.config.restart;
        Actions::of(actions)
    }

    fn stay_stopped(&mut self) -> Actions
        ensures session { self.new ≡ record self.old { restart_timer = 0 } }
        ensures actions { result ≡ [] }
    {
        self.restart_timer = 0;
        Actions::of(&[])
    }

    fn start(&mut self, actions: &[Action]) -> Actions
        requires { length actions.now ≤ 4 }
        ensures session { self.new ≡ starting self.old }
        ensures actions { result ≡ actions.now }
    {
        self.restart_timer = 0;
        self.dial_again(actions)
    }

    fn dial_again(&mut self, actions: &[Action]) -> Actions
        requires { length actions.now ≤ 4 }
        ensures session { self.new ≡ dialling self.old }
        ensures actions { result ≡ actions.now }
    {
        self.state = State::Connect;
        self.connect_retry_timer = CONNECT_RETRY_TIME;
        Actions::of(actions)
    }

    fn wait_to_retry(&mut self, actions: &[Action]) -> Actions
        requires { length actions.now ≤ 4 }
        ensures session { self.new ≡ retrying self.old }
        ensures actions { result ≡ actions.now }
    {
        self.state = State::Active;
        self.connect_retry_timer = CONNECT_RETRY_TIME;
        self.hold_timer = 0;
        Actions::of(actions)
    }

    fn wait_for_open(&mut self, actions: &[Action]) -> Actions
        requires { length actions.now ≤ 4 }
        ensures session { self.new ≡ sent_open self.old }
        ensures actions { result ≡ actions.now }
    {
        self.state = State::OpenSent;
        self.connect_retry_timer = 0;
        self.hold_timer = LARGE_HOLD_TIME;
        Actions::of(actions)
    }

    /// Takes the smaller of both hold times; 0 stops both timers.
    fn agree(&mut self, received: u16, actions: &[Action]) -> Actions
        requires { length actions.now ≤ 4 }
        ensures session { self.new ≡ agreed self.old received }
        ensures actions { result ≡ actions.now }
    {
        self.state = State::OpenConfirm;
        self.hold_time = self.config.hold.min(received);
        self.hold_timer = self.hold_time;
        self.keepalive_timer = self.hold_time / 3;
        Actions::of(actions)
    }

    fn establish(&mut self, actions: &[Action]) -> Actions
        requires { length actions.now ≤ 4 }
        ensures session { self.new ≡ established self.old }
        ensures actions { result ≡ actions.now }
    {
        self.state = State::Established;
        self.hold(actions)
    }

    fn hold(&mut self, actions: &[Action]) -> Actions
        requires { length actions.now ≤ 4 }
        ensures session { self.new ≡ held self.old }
        ensures actions { result ≡ actions.now }
    {
        self.hold_timer = self.hold_time;
        Actions::of(actions)
    }

    fn keep_alive(&mut self, actions: &[Action]) -> Actions
        requires { length actions.now ≤ 4 }
        ensures session { self.new ≡ kept_alive self.old }
        ensures actions { result ≡ actions.now }
    {
        self.keepalive_timer = self.hold_time / 3;
        Actions::of(actions)
    }
}
