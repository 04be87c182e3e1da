//! The session machine: its table pair by pair, and its timers tick by tick.

ghost use Rattle.bgp_values.specs.Ranges.{IsHoldTime};

use bgp_values::is_hold_time;
use session_fsm::Action::{
    Act, Dial, Down, HangUp, SendAlive, SendGiven, SendNotice, SendOpen, Up,
};
use session_fsm::FsmEvent::{
    AutomaticStart, BgpHeaderErr, BgpOpen, BgpOpenMsgErr, ConnectRetryTimerExpires,
    HoldTimerExpires, KeepAliveMsg, KeepaliveTimerExpires, ManualStart, ManualStop, NotifMsg,
    NotifMsgVerErr, TcpConnectionConfirmed, TcpConnectionFails, TcpCrAcked, UpdateMsg,
    UpdateMsgErr,
};
use session_fsm::{Action, Actions, FsmEvent, Session, SessionConfig, State};
use std::process::Abort;

mod pairs;
mod timers;

fn session(hold: u16, restart: u16) -> Session
    requires { IsHoldTime hold }
{
    Session::new(SessionConfig { hold, restart })
}

/// Gives the session an event, whose hold time is a good one.
fn give(rt: &impl Abort, session: &mut Session, event: FsmEvent) -> Actions {
    if let BgpOpen { hold } = event {
        assert!(rt; is_hold_time(hold));
    }
    session.on(event)
}

/// Gives the session these events, whatever it asks for.
fn give_all(rt: &impl Abort, session: &mut Session, events: &[FsmEvent]) {
    for event in events {
        let _actions = give(rt, session, *event);
    }
}

/// Ticks so often, and asserts that no timer runs out.
fn stay_quiet(rt: &impl Abort, session: &mut Session, ticks: usize, name: &str) {
    for tick in 0..ticks {
        assert!(rt; session.tick() == None, "{name}, in tick {tick}");
    }
}
