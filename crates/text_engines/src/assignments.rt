//! The text that `bgpnet check` prints for a network and the entries of an assignment.

ghost use Rattle.std.specs.Prelude.{◌≡◌, ◌==◌, if◌then◌else◌, ℕ, List, IfOk, OnOk, MatchOption};
ghost use Rattle.std.specs.List.{All, AllPairs};
ghost use Rattle.ranked_policy.specs.Plans.{IsBefore, IsNamed};
ghost use Rattle.stable_paths.specs.Stable.{path_of};
ghost use Rattle.stable_paths.specs.Judging.{IsVerdict};
ghost use Rattle.net_text.specs.Printing.{stable_line, unstable_line};
ghost use Rattle.text_engines.specs.Decoding.{output};
ghost use Rattle.text_engines.specs.declared.status.TheConstants.{DONE};
ghost use Rattle.text_engines.specs.Checking.{is_before, IsPlace, HasNoPlace, AssignNothing, Assign, at_prefix, MayStand, IsFirstStray, JudgedBy, VerdictGives, EntriesGive};

use crate::movers::movers_output;
use crate::refusals::refused_output;
use crate::status::DONE;
use net_text::{Code, Entry, stable_line, unstable_line};
use prefix_lanes::Prefix;
use ranked_policy::{Asn, Network, Origin, Path};
use stable_paths::{Assignment, Check, Instance, StableError, check, may_have};
use std::alloc::{AllocError, Global};

// The text printed for a router that would move, and the exit status.
fn unstable_output(
    alloc: Global,
    router: Asn,
    has: &Path,
    best: &Path,
) -> Result<(Vec<u8>, u8), AllocError>
    ensures { IfOk result
        (λ printed. output printed.0.items printed.1 ≡ output (unstable_line router has.now best.now) DONE) }
{
    let mut out = Vec::new(alloc);
    unstable_line(router, has.as_slice(), best.as_slice(), &mut out)?;
    Ok((out, DONE))
}

// The text printed if no router would move, and the exit status.
fn stable_output(alloc: Global) -> Result<(Vec<u8>, u8), AllocError>
    ensures { IfOk result (λ printed. output printed.0.items printed.1 ≡ output stable_line DONE) }
{
    let mut out = Vec::new(alloc);
    stable_line(&mut out)?;
    Ok((out, DONE))
}

// The line of the first entry whose path is not permitted.
fn first_stray(network: &Network, entries: &[Entry]) -> Option<usize>
    ensures { MatchOption result (All (MayStand network.now) entries.now) (IsFirstStray network.now entries.now) }
{
    for entry in entries {
        if !may_have(network, &entry.prefix, entry.router, &entry.path) {
            return Some(entry.line);
        }
    }
    None
}

// Whether one prefix comes before the other: by address, then by length.
fn is_before(one: &Prefix, other: &Prefix) -> bool
    ensures { result ≡ is_before one.now other.now }
{
    one.addr() < other.addr() || one.addr() == other.addr() && one.len() < other.len()
}

// The place of a prefix among origins, which rise.
fn place_of(origins: &[Origin], prefix: &Prefix) -> Option<usize>
    requires { AllPairs (λ origin later. IsBefore origin.prefix later.prefix) origins.now }
    ensures { MatchOption result (HasNoPlace origins.now prefix.now) (IsPlace origins.now prefix.now) }
{
    let place = origins.partition_point(|origin| is_before(&origin.prefix, prefix));
    if place < origins.len() && prefix.equals(&origins[place].prefix) {
        Some(place)
    } else {
        None
    }
}

// Gives a router the path of an entry.
fn give(alloc: Global, assignment: &mut Assignment, entry: &Entry) -> Result<(), AllocError>
    ensures { OnOk result
        ((u : ℕ)
        → path_of assignment.new u ≡ (if entry.now.router == u then entry.now.path else path_of assignment.old u)) }
{
    let path = Path::from_slice(alloc, entry.path.as_slice())?;
    assignment.set(entry.router, path)
}

// `count` assignments of no path.
fn nothing_assigned(alloc: Global, count: usize) -> Result<Vec<Assignment>, AllocError>
    ensures { IfOk result (λ all. AssignNothing count all.items) }
{
    let mut all = Vec::with_capacity(alloc, count)?;
    for _ in 0..count {
        all.push(Assignment::new(alloc))?;
    }
    Ok(all)
}

/// The paths that entries give routers, for the prefix of each origin.
pub(crate) fn assigned(
    alloc: Global,
    origins: &[Origin],
    entries: &[Entry],
) -> Result<Vec<Assignment>, AllocError>
    requires { AllPairs (λ origin later. IsBefore origin.prefix later.prefix) origins.now }
    ensures { IfOk result (λ all. Assign origins.now entries.now all.items) }
{
    let mut all = nothing_assigned(alloc, origins.len())?;
    for entry in entries {
        if let Some(place) = place_of(origins, &entry.prefix) {
            give(alloc, &mut all[place], entry)?;
        }
    }
    Ok(all)
}

// The verdict of a check on an assignment for a prefix.
fn verdict_at(
    alloc: Global,
    network: &Network,
    prefix: &Prefix,
    assignment: &Assignment,
) -> Result<Check, AllocError>
    requires { IsNamed network.now.origins prefix.now }
    ensures { IfOk result (IsVerdict (at_prefix network.now prefix.now) (path_of assignment.now)) }
{
    let instance = Instance::new(network, prefix);
    match check(alloc, &instance, assignment) {
        Ok(verdict) => Ok(verdict),
        Err(StableError::NotPermitted { .. } | StableError::Memory) => Err(AllocError),
    }
}

// The text printed for entries that are all permitted, and the exit status.
fn verdict_output(
    alloc: Global,
    network: &Network,
    entries: &[Entry],
) -> Result<(Vec<u8>, u8), AllocError>
    ensures { IfOk result (λ printed. VerdictGives network.now entries.now (output printed.0.items printed.1)) }
{
    let origins = network.origins();
    let all = assigned(alloc, origins, entries)?;
    for (place, origin) in origins.iter().enumerate() {
        match verdict_at(alloc, network, &origin.prefix, &all[place])? {
            Check::Stable => {}
            Check::Unstable { router, has, best } => {
                return unstable_output(alloc, router, &has, &best);
            }
        }
    }
    stable_output(alloc)
}

// The text printed for entries that are all permitted, and the exit status: all routers that would move, or the first.
fn judged_output(
    alloc: Global,
    lists_all: bool,
    network: &Network,
    entries: &[Entry],
) -> Result<(Vec<u8>, u8), AllocError>
    ensures { IfOk result (λ printed. JudgedBy lists_all network.now entries.now (output printed.0.items printed.1)) }
{
    if lists_all {
        movers_output(alloc, network, entries)
    } else {
        verdict_output(alloc, network, entries)
    }
}

/// The text printed for the entries of an assignment, and the exit status.
pub fn entries_output(
    alloc: Global,
    lists_all: bool,
    network: &Network,
    entries: &[Entry],
) -> Result<(Vec<u8>, u8), AllocError>
    ensures { IfOk result
        (λ printed. EntriesGive lists_all network.now entries.now (output printed.0.items printed.1)) }
{
    match first_stray(network, entries) {
        Some(line) => refused_output(alloc, line, Code::NotPermitted.text()),
        None => judged_output(alloc, lists_all, network, entries),
    }
}
