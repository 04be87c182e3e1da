//! The text that `bgpnet cut` prints of a world: how many of its events are inside the cut of a
//! snapshot, and the routes and the UPDATEs in flight that were recorded.

ghost use Rattle.std.specs.Prelude.{◌≡◌, ◌++◌, OnOk, IfOk, map, true};
ghost use Rattle.snap_collector.specs.Collecting.{member_of, outcome_of};
ghost use Rattle.snap_collector.specs.Collector.{made_for, kept_of};
ghost use Rattle.snap_collector.specs.Flights.{flight_of, is_whole};
ghost use Rattle.world_core.specs.Verdicts.{judged};
ghost use Rattle.schedule_text.specs.Reports.{cut_none_line};
ghost use Rattle.text_engines.specs.Decoding.{output};
ghost use Rattle.play_engine.specs.Playing.{Shows};
ghost use Rattle.play_engine.specs.Cutting.{flights_text, recorded_text, IsCutReport};

use net_text::flight_line;
use ranked_policy::Network;
use run_cuts::laws::runs_pass_through_snapshots;
use schedule_text::{cut_line, cut_none_line, put_parts};
use snap_collector::{Collector, InFlight, Outcome};
use std::alloc::{AllocError, Global};
use text_engines::status::DONE;
use world_core::{World, count_inside};

// Appends the UPDATEs that were in flight, a line each.
fn put_flights(flights: &[InFlight], out: &mut Vec<u8>) -> Result<(), AllocError>
    ensures { OnOk result (out.new.items ≡ out.old.items ++ flights_text (map flight_of flights.now)) }
{
    for flight in flights {
        flight_line(flight.peer, flight.router, &flight.update, out)?;
    }
    Ok(())
}

// The text of what the snapshot of this number recorded: the routes, and the UPDATEs in flight.
fn recorded_of(
    alloc: Global,
    network: &Network,
    collector: &Collector,
    number: u32,
) -> Result<Vec<u8>, AllocError>
    ensures { IfOk result
        (λ text. text.items
        ≡ recorded_text network.now (map member_of collector.now.members)
        (kept_of (map member_of collector.now.members) (made_for collector.now number))) }
{
    let mut text = Vec::new(alloc);
    put_parts(network, collector, number, &mut text)?;
    let Ok(flights) = collector.in_flight(number) else {
        return Err(AllocError);
    };
    put_flights(flights.as_slice(), &mut text)?;
    Ok(text)
}

// The text printed if the snapshot has no cut, and the exit status.
fn none_output(alloc: Global, number: u32) -> Result<(Vec<u8>, u8), AllocError>
    ensures { IfOk result (λ printed. output printed.0.items printed.1 ≡ output (cut_none_line number) DONE) }
{
    let mut out = Vec::new(alloc);
    cut_none_line(number, &mut out)?;
    Ok((out, DONE))
}

// The text printed of the cut of a snapshot that is settled or moving, and the exit status.
fn whole_output(
    alloc: Global,
    network: &Network,
    world: World<'_>,
    number: u32,
) -> Result<(Vec<u8>, u8), AllocError>
    requires same { world.net ≡ network.now }
    requires whole { is_whole (judged world.collector number) ≡ true }
    ensures { IfOk result (λ printed. Shows (IsCutReport number) world.entry (output printed.0.items printed.1)) }
{
    runs_pass_through_snapshots();
    let recorded = recorded_of(alloc, network, world.collector(), number)?;
    // Only the events are kept while they are played again.
    let run = world.into_run();
    let all = run.len();
    // The events are done again, and the snapshot comes out as it did: only memory can be refused.
    let Ok(Some(inside)) = count_inside(alloc, network, run, number) else {
        return Err(AllocError);
    };
    let mut out = Vec::new(alloc);
    cut_line(number, inside, all, &mut out)?;
    out.extend_from_slice(recorded.as_slice())?;
    Ok((out, DONE))
}

// Whether a snapshot that comes out in this way has a part of every router: it is settled or moving.
fn is_whole(outcome: &Outcome) -> bool
    ensures { result ≡ is_whole (outcome_of outcome.now) }
{
    match outcome {
        Outcome::Waiting | Outcome::Abandoned(_) => false,
        Outcome::Moving { .. } | Outcome::Settled => true,
    }
}

/// The text printed of the cut of a snapshot, and the exit status.
pub(crate) fn cut_output(
    alloc: Global,
    network: &Network,
    world: World<'_>,
    number: u32,
) -> Result<(Vec<u8>, u8), AllocError>
    requires { world.net ≡ network.now }
    ensures { IfOk result (λ printed. Shows (IsCutReport number) world.entry (output printed.0.items printed.1)) }
{
    if is_whole(&world.collector().outcome(number)) {
        whole_output(alloc, network, world, number)
    } else {
        none_output(alloc, number)
    }
}
