//! The timers, tick by tick.

use super::*;

/// A step of a run.
enum Step {
    /// An event, and what it asks for.
    On(FsmEvent, &'static [Action]),
    /// These events, whatever they ask for.
    Given(&'static [FsmEvent]),
    /// Ticks in which no timer runs out.
    Quiet(usize),
    /// A tick in which this timer runs out.
    Out(FsmEvent),
    /// An UPDATE is sent, in Established.
    Update,
    /// Eight seconds, of which every second one ends with an UPDATE that is sent.
    Updates,
    IsIdle,
}

/// What a session meets from its start.
struct Case {
    name: &'static str,
    config: SessionConfig,
    steps: &'static [Step],
}

const RESTARTED: SessionConfig = SessionConfig {
    hold: 90,
    restart: 5,
};

const NO_HOLD_TIME: SessionConfig = SessionConfig {
    hold: 0,
    restart: 5,
};

const UP: &[FsmEvent] = &[ManualStart, TcpCrAcked, BgpOpen { hold: 30 }, KeepAliveMsg];

#[rattlefmt::skip]
static CASES: [Case; 15] = [
    // Hold time 90 against 30: a KEEPALIVE every 10 seconds, and in the 40th second, the 30th without
    // word of the peer, the HoldTimer alone.
    Case { name: "a life", config: SessionConfig { hold: 90, restart: 0 }, steps: &[
        Step::On(ManualStart, &[Dial]),
        Step::On(TcpCrAcked, &[SendOpen]),
        Step::On(BgpOpen { hold: 30 }, &[SendAlive]),
        Step::Quiet(9),
        Step::Out(KeepaliveTimerExpires),
        Step::On(KeepaliveTimerExpires, &[SendAlive]),
        Step::On(KeepAliveMsg, &[Up]),
        Step::Quiet(9),
        Step::Out(KeepaliveTimerExpires),
        Step::On(KeepaliveTimerExpires, &[SendAlive]),
        Step::Quiet(9),
        Step::Out(KeepaliveTimerExpires),
        Step::On(KeepaliveTimerExpires, &[SendAlive]),
        Step::Quiet(9),
        Step::Out(HoldTimerExpires),
        Step::On(HoldTimerExpires, &[SendNotice(4), Down, HangUp]),
        Step::Quiet(1000),
    ] },
    // Each timer runs out in the last of its ticks, and in none before.
    Case { name: "a dial", config: RESTARTED, steps: &[
        Step::Given(&[ManualStart]), Step::Quiet(119), Step::Out(ConnectRetryTimerExpires),
    ] },
    Case { name: "a dial again", config: RESTARTED, steps: &[
        Step::Given(&[ManualStart, ConnectRetryTimerExpires]), Step::Quiet(119), Step::Out(ConnectRetryTimerExpires),
    ] },
    Case { name: "a lost connection", config: RESTARTED, steps: &[
        Step::Given(&[ManualStart, TcpCrAcked, TcpConnectionFails]), Step::Quiet(119),
        Step::Out(ConnectRetryTimerExpires),
    ] },
    Case { name: "no OPEN", config: RESTARTED, steps: &[
        Step::Given(&[ManualStart, TcpConnectionConfirmed]), Step::Quiet(239), Step::Out(HoldTimerExpires),
    ] },
    Case { name: "a third of the hold time", config: RESTARTED, steps: &[
        Step::Given(&[ManualStart, TcpCrAcked, BgpOpen { hold: 11 }]), Step::Quiet(2), Step::Out(KeepaliveTimerExpires),
    ] },
    Case { name: "the least hold time", config: RESTARTED, steps: &[
        Step::Given(&[ManualStart, TcpCrAcked, BgpOpen { hold: 3 }, KeepAliveMsg]), Step::Quiet(0),
        Step::Out(KeepaliveTimerExpires),
    ] },
    Case { name: "a restart", config: RESTARTED, steps: &[
        Step::Given(UP), Step::Given(&[TcpConnectionFails]), Step::Quiet(4), Step::Out(AutomaticStart),
    ] },
    // Hold time 0 on either side: nothing runs out from OpenConfirm on.
    Case { name: "no hold time on both sides", config: NO_HOLD_TIME, steps: &[
        Step::Given(&[ManualStart, TcpCrAcked, BgpOpen { hold: 0 }]), Step::Quiet(1000),
        Step::Given(&[KeepAliveMsg, UpdateMsg, KeepAliveMsg]), Step::Update, Step::Quiet(1000),
    ] },
    Case { name: "no own hold time", config: NO_HOLD_TIME, steps: &[
        Step::Given(&[ManualStart, TcpCrAcked, BgpOpen { hold: 90 }]), Step::Quiet(1000),
        Step::Given(&[KeepAliveMsg, UpdateMsg, KeepAliveMsg]), Step::Update, Step::Quiet(1000),
    ] },
    Case { name: "no hold time of the peer", config: RESTARTED, steps: &[
        Step::Given(&[ManualStart, TcpCrAcked, BgpOpen { hold: 0 }]), Step::Quiet(1000),
        Step::Given(&[KeepAliveMsg, UpdateMsg, KeepAliveMsg]), Step::Update, Step::Quiet(1000),
    ] },
    // A KEEPALIVE and an UPDATE set the HoldTimer again, an UPDATE that was sent the KeepaliveTimer.
    Case { name: "messages set their timers again", config: SessionConfig { hold: 9, restart: 0 }, steps: &[
        Step::Given(&[ManualStart, TcpCrAcked, BgpOpen { hold: 90 }, KeepAliveMsg]),
        Step::Updates, Step::Given(&[KeepAliveMsg]),
        Step::Updates, Step::Given(&[UpdateMsg]),
        Step::Updates, Step::Given(&[UpdateMsg]),
        Step::Updates, Step::Given(&[KeepAliveMsg]),
        Step::Updates, Step::Out(HoldTimerExpires),
    ] },
    // After a stop by hand, in Established or after a close, nothing starts by itself.
    Case { name: "stopped in Established", config: RESTARTED, steps: &[
        Step::Given(UP), Step::Given(&[ManualStop]), Step::Quiet(1000), Step::IsIdle,
    ] },
    Case { name: "stopped after a close", config: RESTARTED, steps: &[
        Step::Given(UP), Step::Given(&[TcpConnectionFails, ManualStop]), Step::Quiet(1000), Step::IsIdle,
    ] },
    Case { name: "stopped before an UPDATE", config: RESTARTED, steps: &[
        Step::Given(UP), Step::Given(&[ManualStop, UpdateMsg]), Step::Quiet(1000), Step::IsIdle,
    ] },
];

/// An UPDATE was sent, in Established.
fn send_update(rt: &impl Abort, session: &mut Session, name: &str) {
    assert!(rt;
        session.state() == State::Established,
        "{name}: Established"
    );
    session.update_sent();
}

fn take(rt: &impl Abort, session: &mut Session, name: &str, step: &Step) {
    match step {
        Step::On(event, actions) => {
            let asked = give(rt, session, *event);
            assert!(rt; asked.as_slice() == *actions, "{name}");
        }
        Step::Given(events) => give_all(rt, session, events),
        Step::Quiet(ticks) => stay_quiet(rt, session, *ticks, name),
        Step::Out(event) => assert!(rt; session.tick() == Some(*event), "{name}: runs out"),
        Step::Update => send_update(rt, session, name),
        Step::Updates => {
            for _ in 0..4 {
                stay_quiet(rt, session, 2, name);
                send_update(rt, session, name);
            }
        }
        Step::IsIdle => assert!(rt; session.state() == State::Idle, "{name}: Idle"),
    }
}

/// It keeps the settings that it was made with, whatever was agreed.
#[test]
fn timers_run_out_in_their_last_second_and_no_other(rt: HostRuntime) {
    for case in &CASES {
        assert!(rt; is_hold_time(case.config.hold));
        let mut session = session(case.config.hold, case.config.restart);
        for step in case.steps {
            take(&rt, &mut session, case.name, step);
        }
        assert!(rt; session.config() == case.config, "{}", case.name);
    }
}
