//! One side of a router (`router_side`).

ghost use Rattle.session_fsm.specs.Table.{IsGoodEvent};
ghost use Rattle.bgp_values.specs.declared.width.Width as widths;
ghost use Rattle.router_side.specs.Sayings.{IsSayable};

use super::items::numbers;
use bgp_codec::Message;
use bgp_codec::laws::written_has_a_header;
use bgp_values::Width;
use link_epoch::Sign;
use router_core::What;
use router_side::{Brought, PastUpdate, Side};
use session_fsm::{FsmEvent, SessionConfig, State};
use std::alloc::{AllocError, Global};
use std::process::Abort;
use std::test::Fail;

const SESSION: SessionConfig = SessionConfig {
    hold: 90,
    restart: 0,
};

// The helpers ensure nothing: a caller asks the side what became of it.

// The side carries out what an event leads to.
fn meets(
    alloc: Global,
    side: &mut Side,
    own_open: &Message,
    event: FsmEvent,
) -> Result<(), AllocError>
    requires own { (w : widths.Width) → IsSayable w own_open.now }
    requires good { IsGoodEvent event }
{
    let made = side.draft_event(own_open, event);
    side.reserve(own_open, &Brought::Nothing, &made)?;
    side.commit(alloc, own_open, &made);
    Ok(())
}

// The side carries out what a sign of the peer's leads to.
fn is_given(
    alloc: Global,
    side: &mut Side,
    own_open: &Message,
    sign: Sign,
) -> Result<(), AllocError>
    requires { (w : widths.Width) → IsSayable w own_open.now }
{
    let made = side.draft_sign(own_open, sign);
    side.reserve(own_open, &Brought::Nothing, &made)?;
    side.commit(alloc, own_open, &made);
    Ok(())
}

// A marker is appended.
fn marks(side: &mut Side, number: u32) -> Result<(), AllocError> {
    side.reserve_marker()?;
    side.mark(number);
    Ok(())
}

// The item that is put next, once it is put.
fn put(side: &mut Side) -> Result<Option<What>, AllocError> {
    let next = side.next_item(4096)?;
    side.item_put(4096);
    Ok(next)
}

// Whether the next item has this kind, this incarnation and this number of a marker.
fn puts(side: &mut Side, wanted: (u8, u32, u32)) -> bool {
    match put(side) {
        Ok(Some(what)) => numbers(&what) == wanted,
        Ok(None) | Err(_) => false,
    }
}

fn is_in(side: &Side, state: State, epoch: u32) -> bool {
    side.state() == state && side.epoch() == epoch
}

fn has_octets(side: &Side, count: usize) -> bool {
    side.octets_waiting() == count
}

// Whether no UPDATE was told.
fn tells_nothing(told: Result<Vec<PastUpdate>, AllocError>) -> bool {
    match told {
        Ok(told) => told.is_empty(),
        Err(_) => false,
    }
}

// Whether nothing waits, the session is not Established, and no UPDATE was acted on or sent.
fn is_quiet(alloc: Global, side: &Side) -> bool {
    !side.has_item()
        && !side.is_up()
        && tells_nothing(side.acted(alloc))
        && tells_nothing(side.sent(alloc))
}

// A start dials. The peer's Dial of the same number joins, so that the router's OPEN is said; here a
// KEEPALIVE stands for it. A marker goes behind it.
#[test]
fn a_side_opens(rt: HostRuntime) -> Result<(), Fail> {
    written_has_a_header();
    let mut side = Side::new(rt.alloc(), SESSION, Width::Two)?;
    a_side_opens_in(&rt, rt.alloc(), &Message::AliveMsg, &mut side)?;
    Ok(())
}

fn a_side_opens_in(
    rt: &impl Abort,
    alloc: Global,
    own_open: &Message,
    side: &mut Side,
) -> Result<(), AllocError>
    requires { (w : widths.Width) → IsSayable w own_open.now }
{
    meets(alloc, side, own_open, FsmEvent::ManualStart)?;
    assert!(rt; is_in(side, State::Connect, 1));
    is_given(alloc, side, own_open, Sign::Dial(1))?;
    assert!(rt; is_in(side, State::OpenSent, 1));
    assert!(rt; has_octets(side, 19));
    marks(side, 7)?;
    says_in_order(rt, side);
    assert!(rt; is_quiet(alloc, side));
    Ok(())
}

// Its Dial, octets, and the marker.
fn says_in_order(rt: &impl Abort, side: &mut Side) {
    assert!(rt; puts(side, (0, 1, 0)));
    assert!(rt; puts(side, (1, 1, 0)));
    assert!(rt; puts(side, (2, 1, 7)));
}
