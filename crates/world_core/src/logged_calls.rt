//! Events of one router, which join the run if they are done.

ghost use Rattle.std.specs.Prelude.{◌≡◌, ◌<◌, slice_get, Some, Ok, vec_len, vec_capacity};
ghost use Rattle.router_model.specs.declared.refusal.Stepped.TheVariants.{Did};
ghost use Rattle.router_model.specs.Settings.{peers};
ghost use Rattle.router_core.specs.Views.{IsSame};
ghost use Rattle.world_core.specs.Views.{refusal, answered, logged, EntersPut, EntersTake, EntersOffer};

use crate::schedule::{Event, StepFault, join};
use outbox::Item;
use ranked_policy::Asn;
use router_core::Router;
use router_model::{RouterError, Stepped};
use run_model::GREATEST_STAMP;
use snap_collector::Collector;
use std::collections::VecDeque;

// The refusal of a router, as a world answers it. Full outboxes, and a message that waits to be handled, are nothing to
// do.
fn refusal(error: RouterError) -> Result<Stepped, StepFault>
    ensures { result ≡ refusal error }
{
    match error {
        RouterError::Blocked { .. } | RouterError::Held { .. } => Ok(Stepped::Nothing),
        RouterError::Memory => Err(StepFault::Memory),
        RouterError::NoSuchPeer
        | RouterError::NotOrigin
        | RouterError::OldSnapshot { .. }
        | RouterError::StampEnd
        | RouterError::EpochEnd => Err(StepFault::Refused(error)),
    }
}

/// What a router answered to its call, as a world answers it. An event that is done joins the run, which then has room.
pub(crate) fn log_answer(
    run: &mut Vec<Event>,
    event: &Event,
    called: Result<Stepped, RouterError>,
) -> Result<Stepped, StepFault>
    requires { called ≡ Ok Did → vec_len run.old < vec_capacity run.old }
    ensures answer { result ≡ answered called }
    ensures run { run.new.items ≡ logged called event.now run.old.items }
{
    match called {
        Ok(Stepped::Did) => {
            join(run, event);
            Ok(Stepped::Did)
        }
        Ok(Stepped::Nothing) => Ok(Stepped::Nothing),
        Err(error) => refusal(error),
    }
}

/// A router puts the next item towards the peer at a place into the pipe that leads to it.
pub(crate) fn enter_put(
    router: &mut Router<'_>,
    run: &mut Vec<Event>,
    pipe: &mut VecDeque<Item>,
    event: &Event,
    peer_at: usize,
    peer: Asn,
) -> Result<Stepped, StepFault>
    requires { slice_get (peers router.old.net router.old.number) peer_at ≡ Some peer }
    ensures enters { EntersPut result router.old run.old.items pipe.old.items event.now peer router.new run.new.items
        pipe.new.items }
    ensures same { IsSame router.old router.new }
{
    let item = match router.next_item_at(peer_at, peer) {
        Ok(Some(item)) => item,
        Ok(None) => return Ok(Stepped::Nothing),
        Err(error) => return refusal(error),
    };
    run.reserve(1)?;
    pipe.reserve(1)?;
    router.item_put_at(peer_at, peer);
    pipe.push_back(item).unwrap();
    join(run, event);
    Ok(Stepped::Did)
}

/// A router takes the next item of the pipe from the peer at a place.
pub(crate) fn enter_take(
    router: &mut Router<'_>,
    run: &mut Vec<Event>,
    pipe: &mut VecDeque<Item>,
    event: &Event,
    peer_at: usize,
    peer: Asn,
) -> Result<Stepped, StepFault>
    requires { slice_get (peers router.old.net router.old.number) peer_at ≡ Some peer }
    ensures enters { EntersTake result router.old run.old.items pipe.old.items event.now peer router.new run.new.items
        pipe.new.items }
    ensures same { IsSame router.old router.new }
{
    let Some(item) = pipe.front() else {
        return Ok(Stepped::Nothing);
    };
    let room = run.reserve(1);
    match router.take_at(peer_at, peer, item, room) {
        Ok(Stepped::Did) => {
            join(run, event);
            pipe.pop_front();
            Ok(Stepped::Did)
        }
        Ok(Stepped::Nothing) => Ok(Stepped::Nothing),
        Err(error) => refusal(error),
    }
}

/// A router makes the offer that waits in front, with a stamp above its last and that of the last offer.
pub(crate) fn enter_offer(
    router: &mut Router<'_>,
    run: &mut Vec<Event>,
    collector: &mut Collector,
    board: &mut u64,
    event: &Event,
) -> Result<Stepped, StepFault>
    ensures enters { EntersOffer result router.old run.old.items collector.old board.old event.now router.new
        run.new.items collector.new board.new }
    ensures members { collector.new.members ≡ collector.old.members }
    ensures same { IsSame router.old router.new }
{
    if router.next_offer().is_none() {
        return Ok(Stepped::Nothing);
    }
    let stamp = router.stamp().max(*board).saturating_add(1);
    if stamp > GREATEST_STAMP {
        return Err(StepFault::Refused(RouterError::StampEnd));
    }
    run.reserve(1)?;
    router.offer_to(collector, stamp)?;
    *board = stamp;
    join(run, event);
    Ok(Stepped::Did)
}
