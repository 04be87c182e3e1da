//! The first snapshot that came out settled, and its routes.

ghost use Rattle.std.specs.Prelude.{◌≡◌, ◌<◌, ◌≤◌, ℕ, false, IfOk, MatchOption, map};
ghost use Rattle.snap_marker.specs.Parts.{part_of};
ghost use Rattle.snap_collector.specs.Collecting.{member_of};
ghost use Rattle.snap_collector.specs.Collector.{made_for, kept_of};
ghost use Rattle.world_core.specs.Verdicts.{judged};
ghost use Rattle.text_engines.specs.Decoding.{output};
ghost use Rattle.thread_engines.specs.Running.{is_settled, all_originate, is_wanted, IsFirstWanted, CollectorGives};

use prefix_lanes::Prefix;
use ranked_policy::Network;
use schedule_text::put_parts;
use snap_collector::{Collector, Outcome};
use snap_marker::Part;
use std::alloc::{AllocError, Global};
use text_engines::status::DONE;

// Whether a router originated the prefix as it recorded.
fn originates(part: &Part, prefix: &Prefix) -> bool
    ensures { result ≡ (part_of part.now).originated prefix.now }
{
    part.originated.iter().any(|one| one.equals(prefix))
}

// Whether every origin has a part of a snapshot, and originates its prefix in it.
fn all_originate(network: &Network, collector: &Collector, number: u32) -> bool
    ensures { result
        ≡ all_originate network.now.origins
        (kept_of (map member_of collector.now.members) (made_for collector.now number)) }
{
    for origin in network.origins() {
        match collector.part(number, origin.router) {
            Some(part) => {
                if !originates(part, &origin.prefix) {
                    return false;
                }
            }
            None => return false,
        }
    }
    true
}

// Whether a snapshot came out settled.
fn is_settled(collector: &Collector, number: u32) -> bool
    ensures { result ≡ is_settled (judged collector.now number) }
{
    match collector.outcome(number) {
        Outcome::Settled => true,
        Outcome::Waiting | Outcome::Abandoned(_) | Outcome::Moving { .. } => false,
    }
}

// Whether a snapshot came out settled, with every origin originating.
fn is_wanted(network: &Network, collector: &Collector, number: u32) -> bool
    ensures { result ≡ is_wanted network.now collector.now number }
{
    is_settled(collector, number) && all_originate(network, collector, number)
}

// The first snapshot from 1 to the last that came out settled, with every origin originating.
pub(super) fn first_wanted(network: &Network, collector: &Collector, last: u32) -> Option<u32>
    ensures { MatchOption result ((s : ℕ) → 0 < s → s ≤ last → is_wanted network.now collector.now s ≡ false)
        (IsFirstWanted network.now collector.now last) }
{
    for before in 0..last {
        let number = before + 1;
        if is_wanted(network, collector, number) {
            return Some(number);
        }
    }
    None
}

/// The text printed of the snapshots from 1 to the last, by the collector of a record, and the exit status: the routes
/// of the first that came out settled with every origin originating, or `unsettled`.
///
/// It answers an error if memory is refused.
pub fn settled_output(
    alloc: Global,
    network: &Network,
    collector: &Collector,
    last: u32,
) -> Result<(Vec<u8>, u8), AllocError>
    ensures { IfOk result
        (λ printed. CollectorGives network.now collector.now last (output printed.0.items printed.1)) }
{
    let mut out = Vec::new(alloc);
    match first_wanted(network, collector, last) {
        Some(number) => put_parts(network, collector, number, &mut out)?,
        None => out.extend_from_slice(b"unsettled\n")?,
    }
    Ok((out, DONE))
}
