//! The text printed for a network and the orders of a schedule.

ghost use Rattle.std.specs.Prelude.{◌≡◌, ◌≢◌, ◌++◌, IfOk, OnOk};
ghost use Rattle.world_core.specs.Views.{plain_world, KeepsPromises};
ghost use Rattle.text_engines.specs.Decoding.{output};
ghost use Rattle.schedule_text.specs.Routes.{routes_text};
ghost use Rattle.play_engine.specs.Playing.{Obeyed, IsReport, Shows, stopped, OrdersGive};
ghost use Rattle.play_engine.specs.Cutting.{IsShown};

use crate::cuts::cut_output;
use crate::snapshots::put_snapshots;
use crate::stream::Shown;
use ranked_policy::Network;
use schedule_text::{RefusedOrder, ScheduledOrder, now_line, put_router, stop_line};
use std::alloc::{AllocError, Global};
use text_engines::status::{DONE, REFUSED};
use why_engine::why_output;
use world_core::{StepFault, World};

// Appends the path that each router keeps for the prefix of each origin.
fn put_routes(network: &Network, world: &World<'_>, out: &mut Vec<u8>) -> Result<(), AllocError>
    requires { world.now.net ≡ network.now }
    ensures { OnOk result (out.new.items ≡ out.old.items ++ routes_text network.now (plain_world world.now)) }
{
    for member in network.routers() {
        match world.router(member.asn) {
            Some(router) => put_router(member.asn, router, network.origins(), out)?,
            // The world has every router of its network.
            None => unreachable!(),
        }
    }
    Ok(())
}

// The report of a world, and the exit status.
fn report_output(
    alloc: Global,
    network: &Network,
    world: &World<'_>,
) -> Result<(Vec<u8>, u8), AllocError>
    requires same { world.now.net ≡ network.now }
    requires promises { KeepsPromises world.now }
    ensures { IfOk result (λ printed. Shows IsReport world.now (output printed.0.items printed.1)) }
{
    let mut out = Vec::new(alloc);
    let collector = world.collector();
    put_snapshots(network, collector, collector.decided(), &mut out)?;
    now_line(&mut out)?;
    put_routes(network, world, &mut out)?;
    Ok((out, DONE))
}

// The text shown of a world, and the exit status.
fn shown_output(
    alloc: Global,
    shown: Shown,
    network: &Network,
    world: World<'_>,
) -> Result<(Vec<u8>, u8), AllocError>
    requires same { world.net ≡ network.now }
    requires promises { KeepsPromises world }
    ensures { IfOk result (λ printed. Shows (IsShown shown) world.entry (output printed.0.items printed.1)) }
{
    match shown {
        Shown::Report => report_output(alloc, network, &world),
        Shown::Cut(number) => cut_output(alloc, network, world, number),
        Shown::Why(number) => why_output(alloc, network, &world, number),
    }
}

// Obeys the orders up to the first that is refused.
fn obey_all(world: &mut World<'_>, orders: &[ScheduledOrder]) -> Result<(), RefusedOrder>
    requires { KeepsPromises world.old }
    ensures obeyed { Obeyed result world.old orders.now world.new }
    ensures same { world.new.net ≡ world.old.net }
    ensures promises { KeepsPromises world.new }
{
    for scheduled in orders {
        if let Err(why) = world.obey(&scheduled.order) {
            return Err(RefusedOrder {
                line: scheduled.line,
                why,
            });
        }
    }
    Ok(())
}

// The text printed for an order that is refused, and the exit status. Want of memory is no such refusal: it is an error
// here.
fn stop_output(alloc: Global, stop: RefusedOrder) -> Result<(Vec<u8>, u8), AllocError>
    ensures kind { IfOk result (λ printed. stop.why ≢ StepFault.Memory) }
    ensures output { IfOk result (λ printed. output printed.0.items printed.1 ≡ stopped stop) }
{
    if stop.why == StepFault::Memory {
        return Err(AllocError);
    }
    let mut out = Vec::new(alloc);
    stop_line(stop.line, stop.why, &mut out)?;
    Ok((out, REFUSED))
}

/// The text printed for the orders of a schedule, and the exit status.
pub(crate) fn orders_output(
    alloc: Global,
    shown: Shown,
    network: &Network,
    orders: &[ScheduledOrder],
) -> Result<(Vec<u8>, u8), AllocError>
    ensures { IfOk result
        (λ printed. OrdersGive (IsShown shown) network.now orders.now (output printed.0.items printed.1)) }
{
    let Ok(mut world) = World::new(alloc, network) else {
        return Err(AllocError);
    };
    match obey_all(&mut world, orders) {
        Ok(()) => shown_output(alloc, shown, network, world),
        Err(stop) => stop_output(alloc, stop),
    }
}
