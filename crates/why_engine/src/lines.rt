//! The lines of a router, of its peers and of its prefixes. Each call appends a whole line, with its end; a refused one
//! may leave a part of it.

ghost use Rattle.std.specs.Prelude.{◌≡◌, ◌++◌, OnOk};
ghost use Rattle.why_engine.specs.Explaining.{state_text, outbox_text, coming_text, number_text, behind_word, session_text, peer_line, timer_text, timers_text, is_still, timers_line, originated_text, kept_line, told_line, router_line};

use net_text::{put_decimal, put_len, put_marked, put_numbers, put_prefixes};
use prefix_lanes::Prefix;
use ranked_policy::Asn;
use session_fsm::{Session, State};
use std::alloc::AllocError;

#[tactic(auto, unfolding(crate::specs::Explaining::state_text))]
fn state_text(state: State) -> &'static [u8]
    ensures { result.now ≡ state_text state }
{
    match state {
        State::Idle => b"Idle",
        State::Connect => b"Connect",
        State::Active => b"Active",
        State::OpenSent => b"OpenSent",
        State::OpenConfirm => b"OpenConfirm",
        State::Established => b"Established",
    }
}

fn put_state(state: State, out: &mut Vec<u8>) -> Result<(), AllocError>
    ensures { OnOk result (out.new.items ≡ out.old.items ++ state_text state) }
{
    out.extend_from_slice(state_text(state))
}

#[tactic(auto, unfolding(crate::specs::Explaining::number_text))]
fn put_number(peer: Asn, out: &mut Vec<u8>) -> Result<(), AllocError>
    ensures { OnOk result (out.new.items ≡ out.old.items ++ number_text peer) }
{
    out.extend_from_slice(b"peer ")?;
    put_decimal(out, peer)?;
    out.extend_from_slice(b" ")
}

#[tactic(auto, unfolding(crate::specs::Explaining::behind_word))]
fn put_behind(word: &[u8], number: u32, out: &mut Vec<u8>) -> Result<(), AllocError>
    ensures { OnOk result (out.new.items ≡ out.old.items ++ behind_word word.now number) }
{
    out.extend_from_slice(word)?;
    put_decimal(out, number)
}

#[tactic(auto, unfolding(crate::specs::Explaining::session_text))]
fn put_session(peer: Asn, state: State, epoch: u32, out: &mut Vec<u8>) -> Result<(), AllocError>
    ensures { OnOk result (out.new.items ≡ out.old.items ++ session_text peer state epoch) }
{
    put_number(peer, out)?;
    put_state(state, out)?;
    put_behind(b" incarnation ", epoch, out)
}

fn put_outbox(waiting: usize, out: &mut Vec<u8>) -> Result<(), AllocError>
    ensures { OnOk result (out.new.items ≡ out.old.items ++ outbox_text waiting) }
{
    if waiting == 0 {
        return Ok(());
    }
    out.extend_from_slice(b" outbox ")?;
    put_len(out, waiting)
}

fn coming_text(coming: bool) -> &'static [u8]
    ensures { result.now ≡ coming_text coming }
{
    if coming { b" on its way" } else { b"" }
}

/// Appends a peer: the state of the session with it, the incarnation of the link, how many octets wait towards it, and
/// whether something of it is on its way.
#[tactic(auto, unfolding(crate::specs::Explaining::peer_line))]
pub(crate) fn put_peer_line(
    peer: Asn,
    state: State,
    epoch: u32,
    waiting: usize,
    coming: bool,
    out: &mut Vec<u8>,
) -> Result<(), AllocError>
    ensures { OnOk result (out.new.items ≡ out.old.items ++ peer_line peer state epoch waiting coming) }
{
    put_session(peer, state, epoch, out)?;
    put_outbox(waiting, out)?;
    out.extend_from_slice(coming_text(coming))?;
    out.extend_from_slice(b"\n")
}

// Appends the name of a timer and the seconds that are left of it, if it runs.
#[tactic(auto, unfolding(crate::specs::Explaining::timer_text))]
fn put_timer(name: &[u8], seconds: u16, out: &mut Vec<u8>) -> Result<(), AllocError>
    ensures { OnOk result (out.new.items ≡ out.old.items ++ timer_text name.now seconds) }
{
    if seconds == 0 {
        return Ok(());
    }
    out.extend_from_slice(name)?;
    put_decimal(out, u32::from(seconds))
}

#[tactic(auto, unfolding(crate::specs::Explaining::timers_text))]
fn put_timers(session: &Session, out: &mut Vec<u8>) -> Result<(), AllocError>
    ensures { OnOk result (out.new.items ≡ out.old.items ++ timers_text session.now) }
{
    put_timer(b" ConnectRetryTimer ", session.connect_retry_timer(), out)?;
    put_timer(b" HoldTimer ", session.hold_timer(), out)?;
    put_timer(b" KeepaliveTimer ", session.keepalive_timer(), out)?;
    put_timer(b" RestartTimer ", session.restart_timer(), out)
}

// Whether no timer of a session runs.
fn is_still(session: &Session) -> bool
    ensures { result ≡ is_still session.now }
{
    session.connect_retry_timer() == 0
        && session.hold_timer() == 0
        && session.keepalive_timer() == 0
        && session.restart_timer() == 0
}

/// Appends the timers of a session that run, with the seconds that are left; nothing if none does.
pub(crate) fn put_timers_line(session: &Session, out: &mut Vec<u8>) -> Result<(), AllocError>
    ensures { OnOk result (out.new.items ≡ out.old.items ++ timers_line session.now) }
{
    if is_still(session) {
        return Ok(());
    }
    out.extend_from_slice(b"  timers")?;
    put_timers(session, out)?;
    out.extend_from_slice(b"\n")
}

fn originated_text(originated: bool) -> &'static [u8]
    ensures { result.now ≡ originated_text originated }
{
    if originated { b", originated" } else { b"" }
}

/// Appends the path that is kept for a prefix, and whether the router originates it.
#[tactic(auto, unfolding(crate::specs::Explaining::kept_line))]
pub(crate) fn put_kept_line(
    prefix: &Prefix,
    kept: &[Asn],
    originated: bool,
    out: &mut Vec<u8>,
) -> Result<(), AllocError>
    ensures { OnOk result (out.new.items ≡ out.old.items ++ kept_line prefix.now kept.now originated) }
{
    out.extend_from_slice(b"prefix")?;
    put_prefixes(out, &[*prefix])?;
    out.extend_from_slice(b" keeps ")?;
    put_numbers(out, kept)?;
    out.extend_from_slice(originated_text(originated))?;
    out.extend_from_slice(b"\n")
}

/// Appends the peers that were told the kept path.
#[tactic(auto, unfolding(crate::specs::Explaining::told_line))]
pub(crate) fn put_told_line(peers: &[Asn], out: &mut Vec<u8>) -> Result<(), AllocError>
    ensures { OnOk result (out.new.items ≡ out.old.items ++ told_line peers.now) }
{
    out.extend_from_slice(b"  told")?;
    put_marked(out, peers, b' ')?;
    out.extend_from_slice(b"\n")
}

/// Appends the number of the router that is explained.
#[tactic(auto, unfolding(crate::specs::Explaining::router_line))]
pub(crate) fn put_router_line(number: Asn, out: &mut Vec<u8>) -> Result<(), AllocError>
    ensures { OnOk result (out.new.items ≡ out.old.items ++ router_line number) }
{
    out.extend_from_slice(b"router ")?;
    put_decimal(out, number)?;
    out.extend_from_slice(b"\n")
}
