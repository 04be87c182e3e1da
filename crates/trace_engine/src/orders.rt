//! Obeying orders, each written as the events that it did.

ghost use Rattle.std.specs.Prelude.{◌≡◌, ◌≢◌, ◌++◌, IfOk};
ghost use Rattle.net_text.specs.Lexing.{lines_of};
ghost use Rattle.text_engines.specs.declared.status.TheConstants.{REFUSED};
ghost use Rattle.text_engines.specs.Decoding.{output};
ghost use Rattle.world_core.specs.Views.{Opens};
ghost use Rattle.schedule_text.specs.Events.{head_of_schedule};
ghost use Rattle.text_engines.specs.Engine.{limited};
ghost use Rattle.trace_engine.specs.Tracing.{TracesOrder, TracesAll, OrdersTrace, stop_comment};

use crate::comments::{put_head, put_stop, put_tail};
use crate::notes::Notes;
use crate::tracer::Tracer;
use net_text::put_network;
use ranked_policy::Network;
use schedule_text::{RefusedOrder, ScheduledOrder};
use std::alloc::{AllocError, Global};
use text_engines::put_limit;
use text_engines::status::{DONE, REFUSED};
use world_core::{StepFault, World};

// Obeys an order, and appends its lines.
fn trace_order<const OCTETS: bool>(
    world: &mut World<'_>,
    scheduled: &ScheduledOrder,
    tracer: &mut Tracer<OCTETS>,
) -> Result<(), StepFault>
    ensures traces { TracesOrder OCTETS result world.old scheduled.now tracer.old.out.items world.new tracer.new.out.items }
    ensures same { world.new.net ≡ world.old.net }
{
    put_head(scheduled, &mut tracer.out)?;
    let before = world.run().len();
    let rest = world.obey_watched(&scheduled.order, tracer)?;
    let count = world.run().len().saturating_sub(before);
    put_tail(scheduled, count, rest, &mut tracer.out)?;
    Ok(())
}

// Obeys the orders up to the first that is refused, and appends their lines.
fn trace_all<const OCTETS: bool>(
    world: &mut World<'_>,
    orders: &[ScheduledOrder],
    tracer: &mut Tracer<OCTETS>,
) -> Result<(), RefusedOrder>
    ensures traces { TracesAll OCTETS result world.old orders.now tracer.old.out.items world.new tracer.new.out.items }
    ensures same { world.new.net ≡ world.old.net }
{
    for scheduled in orders {
        if let Err(why) = trace_order(world, scheduled, tracer) {
            return Err(RefusedOrder {
                line: scheduled.line,
                why,
            });
        }
    }
    Ok(())
}

// The text printed, with a comment if it is longer than an input may be, and the exit status.
fn end_output(mut out: Vec<u8>, status: u8) -> Result<(Vec<u8>, u8), AllocError>
    ensures { IfOk result (λ printed. output printed.0.items printed.1 ≡ output (limited out.items) status) }
{
    put_limit(&mut out)?;
    Ok((out, status))
}

// The text printed if an order is refused, behind the trace up to it, and the exit status. Want of memory is no such
// refusal: it is an error here.
fn stop_output(stop: RefusedOrder, mut out: Vec<u8>) -> Result<(Vec<u8>, u8), AllocError>
    ensures kind { IfOk result (λ printed. stop.why ≢ StepFault.Memory) }
    ensures output { IfOk result
        (λ printed. output printed.0.items printed.1
        ≡ output (limited (out.items ++ stop_comment stop.line stop.why)) REFUSED) }
{
    if stop.why == StepFault::Memory {
        return Err(AllocError);
    }
    put_stop(stop.line, stop.why, &mut out)?;
    end_output(out, REFUSED)
}

// The text printed for orders in a world in which nothing was done, behind the text so far, and the exit status.
fn world_output<const OCTETS: bool>(
    alloc: Global,
    network: &Network,
    mut world: World<'_>,
    orders: &[ScheduledOrder],
    out: Vec<u8>,
) -> Result<(Vec<u8>, u8), AllocError>
    requires { Opens network.now world }
    ensures { IfOk result (λ printed. OrdersTrace OCTETS network.now out.items orders.now (output printed.0.items printed.1)) }
{
    let notes = Notes::new(alloc, OCTETS);
    let mut tracer = Tracer::<OCTETS> { notes, out };
    match trace_all(&mut world, orders, &mut tracer) {
        Ok(()) => end_output(tracer.out, DONE),
        Err(stop) => stop_output(stop, tracer.out),
    }
}

/// The text printed for a network of these lines and the orders of a schedule, and the exit status. The octets that are
/// sent are shown, or not.
pub(crate) fn orders_output<const OCTETS: bool>(
    alloc: Global,
    lines: &[u8],
    network: &Network,
    orders: &[ScheduledOrder],
) -> Result<(Vec<u8>, u8), AllocError>
    ensures { IfOk result
        (λ printed. OrdersTrace OCTETS network.now (head_of_schedule (lines_of lines.now)) orders.now
        (output printed.0.items printed.1)) }
{
    let mut out = Vec::new(alloc);
    put_network(lines, &mut out)?;
    out.extend_from_slice(b"schedule\n")?;
    match World::new(alloc, network) {
        Ok(world) => world_output::<OCTETS>(alloc, network, world, orders, out),
        Err(_) => Err(AllocError),
    }
}
