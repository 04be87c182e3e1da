//! The text of what the threads of a network did, and of what they ended in.

ghost use Rattle.std.specs.Prelude.{◌≡◌, ◌++◌, IfOk, OnOk};
ghost use Rattle.net_text.specs.Lexing.{lines_of};
ghost use Rattle.world_core.specs.Verdicts.{judged};
ghost use Rattle.schedule_text.specs.Reports.{snapshot_line};
ghost use Rattle.thread_engines.specs.Recording.{events_of, events_text, record_text, verdicts_text, kept_text, ending_text};

use net_text::put_network;
use net_workers::{Record, Worked, WorkerEvent};
use ranked_policy::{Network, Origin};
use schedule_text::{event_line, now_line, put_router, snapshot_line};
use snap_collector::Collector;
use std::alloc::{AllocError, Global};

// Appends the events of these entries, each as an order.
fn put_events(entries: &[WorkerEvent], out: &mut Vec<u8>) -> Result<(), AllocError>
    ensures { OnOk result (out.new.items ≡ out.old.items ++ events_text (events_of entries.now)) }
{
    for entry in entries {
        event_line(&entry.event, out)?;
    }
    Ok(())
}

/// The text of the events of these entries, behind the lines of a network.
pub(crate) fn record_text(
    alloc: Global,
    lines: &[u8],
    entries: &[WorkerEvent],
) -> Result<Vec<u8>, AllocError>
    ensures { IfOk result (λ text. text.items ≡ record_text (lines_of lines.now) (events_of entries.now)) }
{
    let mut out = Vec::new(alloc);
    put_network(lines, &mut out)?;
    out.extend_from_slice(b"schedule\n")?;
    put_events(entries, &mut out)?;
    Ok(out)
}

// Appends how a snapshot came out.
fn put_verdict(collector: &Collector, number: u32, out: &mut Vec<u8>) -> Result<(), AllocError>
    ensures { OnOk result (out.new.items ≡ out.old.items ++ snapshot_line number (judged collector.now number)) }
{
    let outcome = collector.outcome(number);
    snapshot_line(number, &outcome, out)
}

// Appends how the snapshots of these numbers came out, in their order.
fn put_verdicts(collector: &Collector, numbers: &[u32], out: &mut Vec<u8>) -> Result<(), AllocError>
    ensures { OnOk result (out.new.items ≡ out.old.items ++ verdicts_text collector.now numbers.now) }
{
    for number in numbers {
        put_verdict(collector, *number, out)?;
    }
    Ok(())
}

// Appends the routes that the routers of these workers keep.
fn put_kept<G>(
    workers: &[Worked<'_, G>],
    origins: &[Origin],
    out: &mut Vec<u8>,
) -> Result<(), AllocError>
    ensures { OnOk result (out.new.items ≡ out.old.items ++ kept_text origins.now workers.now) }
{
    for worked in workers {
        put_router(worked.router.number(), &worked.router, origins, out)?;
    }
    Ok(())
}

/// The text of what the threads of a record ended in: how each snapshot that is decided came out, the line `now`, and
/// the routes that the routers keep.
pub(crate) fn ending_text<G>(
    alloc: Global,
    network: &Network,
    made: &Record<'_, G>,
) -> Result<Vec<u8>, AllocError>
    ensures { IfOk result (λ text. text.items ≡ ending_text network.now made.now.collector made.now.workers.items) }
{
    let mut out = Vec::new(alloc);
    let collector = &made.collector;
    put_verdicts(collector, collector.decided(), &mut out)?;
    now_line(&mut out)?;
    put_kept(made.workers.as_slice(), network.origins(), &mut out)?;
    Ok(out)
}
