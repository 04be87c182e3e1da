//! Each pair of state and event, against the rows of RFC 4271 section 8.2.2 in this project's profile.

use super::*;

/// A row: what these events do in this state, and the seconds that are left of each timer afterwards,
/// 0 where it is stopped.
struct Row {
    name: &'static str,
    state: State,
    events: &'static [FsmEvent],
    actions: &'static [Action],
    next: State,
    timers: [u16; 4],
}

/// All events, in the order of their numbers.
#[rattlefmt::skip]
static EVENTS: [FsmEvent; 17] = [
    ManualStart, ManualStop, AutomaticStart, ConnectRetryTimerExpires, HoldTimerExpires, KeepaliveTimerExpires, TcpCrAcked, TcpConnectionConfirmed, TcpConnectionFails, BgpOpen { hold: 30 }, BgpHeaderErr, BgpOpenMsgErr, NotifMsgVerErr, NotifMsg, KeepAliveMsg, UpdateMsg, UpdateMsgErr,
];

static STATES: [State; 6] = [
    State::Idle,
    State::Connect,
    State::Active,
    State::OpenSent,
    State::OpenConfirm,
    State::Established,
];

/// The session of each row has been in its state for one second: its own hold time is 90 and the
/// peer's 30, its restart time is 5, and Idle was entered by a close. The timers are the
/// ConnectRetryTimer, the HoldTimer, the KeepaliveTimer and the RestartTimer.
#[rattlefmt::skip]
static ROWS: [Row; 38] = [
    Row { name: "Idle starts", state: State::Idle, events: &[ManualStart, AutomaticStart], actions: &[Dial], next: State::Connect, timers: [120, 0, 0, 0] },
    Row { name: "Idle is stopped", state: State::Idle, events: &[ManualStop], actions: &[], next: State::Idle, timers: [0, 0, 0, 0] },
    Row { name: "Idle ignores the others", state: State::Idle, events: &[ConnectRetryTimerExpires, HoldTimerExpires, KeepaliveTimerExpires, TcpCrAcked, TcpConnectionConfirmed, TcpConnectionFails, BgpOpen { hold: 30 }, BgpHeaderErr, BgpOpenMsgErr, NotifMsgVerErr, NotifMsg, KeepAliveMsg, UpdateMsg, UpdateMsgErr], actions: &[], next: State::Idle, timers: [0, 0, 0, 4] },
    Row { name: "Connect is connected", state: State::Connect, events: &[TcpCrAcked, TcpConnectionConfirmed], actions: &[SendOpen], next: State::OpenSent, timers: [0, 240, 0, 0] },
    Row { name: "Connect dials again", state: State::Connect, events: &[ConnectRetryTimerExpires], actions: &[HangUp, Dial], next: State::Connect, timers: [120, 0, 0, 0] },
    Row { name: "Connect has started", state: State::Connect, events: &[ManualStart, AutomaticStart], actions: &[], next: State::Connect, timers: [119, 0, 0, 0] },
    Row { name: "Connect is stopped", state: State::Connect, events: &[ManualStop], actions: &[HangUp], next: State::Idle, timers: [0, 0, 0, 0] },
    Row { name: "Connect closes", state: State::Connect, events: &[HoldTimerExpires, KeepaliveTimerExpires, TcpConnectionFails, BgpOpen { hold: 30 }, BgpHeaderErr, BgpOpenMsgErr, NotifMsgVerErr, NotifMsg, KeepAliveMsg, UpdateMsg, UpdateMsgErr], actions: &[HangUp], next: State::Idle, timers: [0, 0, 0, 5] },
    Row { name: "Active is connected", state: State::Active, events: &[TcpCrAcked, TcpConnectionConfirmed], actions: &[SendOpen], next: State::OpenSent, timers: [0, 240, 0, 0] },
    Row { name: "Active dials again", state: State::Active, events: &[ConnectRetryTimerExpires], actions: &[Dial], next: State::Connect, timers: [120, 0, 0, 0] },
    Row { name: "Active has started", state: State::Active, events: &[ManualStart, AutomaticStart], actions: &[], next: State::Active, timers: [119, 0, 0, 0] },
    Row { name: "Active is stopped", state: State::Active, events: &[ManualStop], actions: &[HangUp], next: State::Idle, timers: [0, 0, 0, 0] },
    Row { name: "Active closes", state: State::Active, events: &[HoldTimerExpires, KeepaliveTimerExpires, TcpConnectionFails, BgpOpen { hold: 30 }, BgpHeaderErr, BgpOpenMsgErr, NotifMsgVerErr, NotifMsg, KeepAliveMsg, UpdateMsg, UpdateMsgErr], actions: &[HangUp], next: State::Idle, timers: [0, 0, 0, 5] },
    Row { name: "OpenSent hears the OPEN", state: State::OpenSent, events: &[BgpOpen { hold: 30 }], actions: &[SendAlive], next: State::OpenConfirm, timers: [0, 30, 10, 0] },
    Row { name: "OpenSent loses the connection", state: State::OpenSent, events: &[TcpConnectionFails], actions: &[HangUp], next: State::Active, timers: [120, 0, 0, 0] },
    Row { name: "OpenSent is stopped", state: State::OpenSent, events: &[ManualStop], actions: &[SendNotice(6), HangUp], next: State::Idle, timers: [0, 0, 0, 0] },
    Row { name: "OpenSent waited too long", state: State::OpenSent, events: &[HoldTimerExpires], actions: &[SendNotice(4), HangUp], next: State::Idle, timers: [0, 0, 0, 5] },
    Row { name: "OpenSent meets a fault", state: State::OpenSent, events: &[BgpHeaderErr, BgpOpenMsgErr], actions: &[SendGiven, HangUp], next: State::Idle, timers: [0, 0, 0, 5] },
    Row { name: "OpenSent is told of the version", state: State::OpenSent, events: &[NotifMsgVerErr], actions: &[HangUp], next: State::Idle, timers: [0, 0, 0, 5] },
    Row { name: "OpenSent expects none of these", state: State::OpenSent, events: &[ConnectRetryTimerExpires, KeepaliveTimerExpires, NotifMsg, KeepAliveMsg, UpdateMsg, UpdateMsgErr], actions: &[SendNotice(5), HangUp], next: State::Idle, timers: [0, 0, 0, 5] },
    Row { name: "OpenSent has started", state: State::OpenSent, events: &[ManualStart, AutomaticStart, TcpCrAcked, TcpConnectionConfirmed], actions: &[], next: State::OpenSent, timers: [0, 239, 0, 0] },
    Row { name: "OpenConfirm hears the KEEPALIVE", state: State::OpenConfirm, events: &[KeepAliveMsg], actions: &[Up], next: State::Established, timers: [0, 30, 9, 0] },
    Row { name: "OpenConfirm keeps alive", state: State::OpenConfirm, events: &[KeepaliveTimerExpires], actions: &[SendAlive], next: State::OpenConfirm, timers: [0, 29, 10, 0] },
    Row { name: "OpenConfirm is stopped", state: State::OpenConfirm, events: &[ManualStop], actions: &[SendNotice(6), HangUp], next: State::Idle, timers: [0, 0, 0, 0] },
    Row { name: "OpenConfirm waited too long", state: State::OpenConfirm, events: &[HoldTimerExpires], actions: &[SendNotice(4), HangUp], next: State::Idle, timers: [0, 0, 0, 5] },
    Row { name: "OpenConfirm meets a fault", state: State::OpenConfirm, events: &[BgpHeaderErr, BgpOpenMsgErr], actions: &[SendGiven, HangUp], next: State::Idle, timers: [0, 0, 0, 5] },
    Row { name: "OpenConfirm is closed by the peer", state: State::OpenConfirm, events: &[TcpConnectionFails, NotifMsgVerErr, NotifMsg], actions: &[HangUp], next: State::Idle, timers: [0, 0, 0, 5] },
    Row { name: "OpenConfirm expects none of these", state: State::OpenConfirm, events: &[ConnectRetryTimerExpires, BgpOpen { hold: 30 }, UpdateMsg, UpdateMsgErr], actions: &[SendNotice(5), HangUp], next: State::Idle, timers: [0, 0, 0, 5] },
    Row { name: "OpenConfirm has started", state: State::OpenConfirm, events: &[ManualStart, AutomaticStart, TcpCrAcked, TcpConnectionConfirmed], actions: &[], next: State::OpenConfirm, timers: [0, 29, 9, 0] },
    Row { name: "Established hears a KEEPALIVE", state: State::Established, events: &[KeepAliveMsg], actions: &[], next: State::Established, timers: [0, 30, 9, 0] },
    Row { name: "Established hears an UPDATE", state: State::Established, events: &[UpdateMsg], actions: &[Act], next: State::Established, timers: [0, 30, 9, 0] },
    Row { name: "Established keeps alive", state: State::Established, events: &[KeepaliveTimerExpires], actions: &[SendAlive], next: State::Established, timers: [0, 29, 10, 0] },
    Row { name: "Established is stopped", state: State::Established, events: &[ManualStop], actions: &[SendNotice(6), Down, HangUp], next: State::Idle, timers: [0, 0, 0, 0] },
    Row { name: "Established waited too long", state: State::Established, events: &[HoldTimerExpires], actions: &[SendNotice(4), Down, HangUp], next: State::Idle, timers: [0, 0, 0, 5] },
    Row { name: "Established meets a fault", state: State::Established, events: &[BgpHeaderErr, UpdateMsgErr], actions: &[SendGiven, Down, HangUp], next: State::Idle, timers: [0, 0, 0, 5] },
    Row { name: "Established is closed by the peer", state: State::Established, events: &[TcpConnectionFails, NotifMsgVerErr, NotifMsg], actions: &[Down, HangUp], next: State::Idle, timers: [0, 0, 0, 5] },
    Row { name: "Established expects none of these", state: State::Established, events: &[ConnectRetryTimerExpires, BgpOpen { hold: 30 }, BgpOpenMsgErr], actions: &[SendNotice(5), Down, HangUp], next: State::Idle, timers: [0, 0, 0, 5] },
    Row { name: "Established has started", state: State::Established, events: &[ManualStart, AutomaticStart, TcpCrAcked, TcpConnectionConfirmed], actions: &[], next: State::Established, timers: [0, 29, 9, 0] },
];

/// The events that lead a new session into this state.
fn way_to(state: State) -> &'static [FsmEvent] {
    match state {
        State::Idle => &[ManualStart, TcpConnectionFails],
        State::Connect => &[ManualStart],
        State::Active => &[ManualStart, TcpCrAcked, TcpConnectionFails],
        State::OpenSent => &[ManualStart, TcpCrAcked],
        State::OpenConfirm => &[ManualStart, TcpCrAcked, BgpOpen { hold: 30 }],
        State::Established => &[ManualStart, TcpCrAcked, BgpOpen { hold: 30 }, KeepAliveMsg],
    }
}

/// The timer that is to run out in this tick.
fn due(timers: &[u16; 4], tick: u16) -> Option<FsmEvent> {
    let [connect_retry, hold, keepalive, restart] = *timers;
    if hold == tick {
        Some(HoldTimerExpires)
    } else if keepalive == tick {
        Some(KeepaliveTimerExpires)
    } else if connect_retry == tick {
        Some(ConnectRetryTimerExpires)
    } else if restart == tick {
        Some(AutomaticStart)
    } else {
        None
    }
}

/// Each timer runs out in the last of its seconds, and one that is stopped never: no timer is set to
/// more than 240, and none of a row run out together.
fn timers_run_out(rt: &impl Abort, session: &mut Session, row: &Row) {
    for tick in 1..=241u16 {
        assert!(rt;
            session.tick() == due(&row.timers, tick),
            "{}: {tick}",
            row.name
        );
    }
}

/// A session in this state for a second.
fn session_in(rt: &impl Abort, state: State) -> Session {
    let mut session = session(90, 5);
    give_all(rt, &mut session, way_to(state));
    assert!(rt; session.tick() == None);
    assert!(rt; session.state() == state);
    session
}

fn obeys(rt: &impl Abort, row: &Row, event: FsmEvent) {
    let mut session = session_in(rt, row.state);
    let actions = give(rt, &mut session, event);
    assert!(rt; actions.as_slice() == row.actions, "{}", row.name);
    assert!(rt; session.state() == row.next, "{}", row.name);
    timers_run_out(rt, &mut session, row);
}

#[test]
fn each_pair_of_state_and_event_is_obeyed(rt: HostRuntime) {
    for row in &ROWS {
        for &event in row.events {
            obeys(&rt, row, event);
        }
    }
}

/// How many rows have this pair.
fn rows_of(state: State, event: FsmEvent) -> usize {
    let mut count = 0usize;
    for row in &ROWS {
        if row.state == state && row.events.contains(&event) {
            count = count.saturating_add(1);
        }
    }
    count
}

/// Each pair of state and event stands in exactly one row.
#[test]
fn every_pair_has_a_row(rt: HostRuntime) {
    for &state in &STATES {
        for &event in &EVENTS {
            assert!(rt; rows_of(state, event) == 1);
        }
    }
}
