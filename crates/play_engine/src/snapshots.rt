//! How snapshots came out, and the routes of those that are settled.

ghost use Rattle.std.specs.Prelude.{◌≡◌, ◌++◌, OnOk, map};
ghost use Rattle.snap_collector.specs.Collecting.{member_of};
ghost use Rattle.snap_collector.specs.Collector.{made_for};
ghost use Rattle.play_engine.specs.Reporting.{snapshot_text, snapshots_text};

use ranked_policy::Network;
use schedule_text::{put_parts, snapshot_line};
use snap_collector::{Collector, Outcome};
use std::alloc::AllocError;

// Appends how a snapshot came out, and its routes if it is settled.
fn put_snapshot(
    network: &Network,
    collector: &Collector,
    number: u32,
    out: &mut Vec<u8>,
) -> Result<(), AllocError>
    ensures { OnOk result
        (out.new.items
        ≡ out.old.items
        ++ snapshot_text network.now (map member_of collector.now.members) (made_for collector.now) number) }
{
    let outcome = collector.outcome(number);
    snapshot_line(number, &outcome, out)?;
    match outcome {
        Outcome::Settled => put_parts(network, collector, number, out),
        Outcome::Waiting | Outcome::Abandoned(_) | Outcome::Moving { .. } => Ok(()),
    }
}

/// Appends how the snapshots of these numbers came out, in their order, with the routes of each that is settled.
pub fn put_snapshots(
    network: &Network,
    collector: &Collector,
    numbers: &[u32],
    out: &mut Vec<u8>,
) -> Result<(), AllocError>
    ensures { OnOk result
        (out.new.items
        ≡ out.old.items
        ++ snapshots_text network.now (map member_of collector.now.members) (made_for collector.now)
        numbers.now) }
{
    for number in numbers {
        put_snapshot(network, collector, *number, out)?;
    }
    Ok(())
}
