//! The chores of the routers of `bgpnet run` and `bgpnet record`.

ghost use Rattle.std.specs.Prelude.{◌≡◌, ◌<◌, ◌==◌, [], length, map, count_by, IfOk, MatchOption};
ghost use Rattle.std.specs.List.{AllByRecursion};
ghost use Rattle.thread_engines.specs.Gates.{opening, asked_for, asked_of, given_by, scripts_for, spacing_of, HasRoom};

use crate::gates::{RunGate, Until};
use net_workers::{Chore, MOST_TURNS};
use ranked_policy::{Asn, Network};
use router_model::Command;
use std::alloc::{AllocError, Global};

/// How long the routers of a network run, and the snapshots that are taken.
#[derive(Clone, Copy, PartialEq, Eq)]
pub struct RunOptions {
    /// The chores of each router, 1 to [`MOST_TURNS`]. With another number the run is refused.
    pub turns: u32,
    /// How many snapshots the least router takes, numbered from 1. The words of the program name 1 to 1000. With 0,
    /// `unsettled` is printed.
    pub snapshots: u32,
}

// The chores of a router's opening: to start the session with each peer, and to originate each prefix of which it is
// the origin.
fn opening(alloc: Global, network: &Network, number: Asn) -> Result<Vec<Chore>, AllocError>
    ensures { IfOk result (λ chores. chores.items ≡ opening network.now number) }
{
    let mut chores = Vec::new(alloc);
    for link in network.links_of(number) {
        chores.push(Chore::Command(Command::Start(link.other)))?;
    }
    for origin in network.origins() {
        if origin.router == number {
            chores.push(Chore::Command(Command::Originate(origin.prefix)))?;
        }
    }
    Ok(chores)
}

// How many prefixes a router is the origin of.
fn count_prefixes(network: &Network, number: Asn) -> usize
    ensures { result ≡ count_by (λ o. o.router == number) network.now.origins }
{
    let origins = network.origins().iter();
    origins.filter(|origin| origin.router == number).count()
}

// How many chores the opening of a router has.
fn opening_len(network: &Network, number: Asn) -> usize
    ensures { result ≡ length (opening network.now number) }
{
    let _ = network.built();
    network.links_of(number).len() + count_prefixes(network, number)
}

/// How far each snapshot stands behind the one before, if the options leave room for it and for the opening of every
/// router. It takes no memory.
pub(crate) fn spacing(network: &Network, options: &RunOptions) -> Option<u32>
    ensures { MatchOption result (HasRoom network.now options.now → ⊥)
        (λ spacing. HasRoom network.now options.now × (spacing ≡ spacing_of network.now options.now)) }
{
    if options.turns == 0 || options.turns > MOST_TURNS {
        return None;
    }
    let turns = options.turns as usize;
    let routers = network.routers();
    for router in routers {
        if turns < opening_len(network, router.asn) {
            return None;
        }
    }
    let behind = turns - opening_len(network, routers[0].asn);
    let spacing = behind / (options.snapshots as usize + 1);
    if spacing == 0 {
        None
    } else {
        Some(spacing as u32)
    }
}

/// The gates of a network's routers, rising, for a run of the network in threads: each gives the chores of its
/// router's opening, a `Start` for each peer and an `Originate` for each prefix of which it is the origin, and
/// then Turns. The least router also takes the snapshots from 1 to the last, one each `spacing` chores behind
/// its opening, until the last or until one has settled; the others take none.
///
/// It answers an error if memory is refused.
pub(crate) fn new_gates(
    alloc: Global,
    network: &Network,
    spacing: u32,
    snapshots: u32,
    until: Until,
) -> Result<Vec<RunGate>, AllocError>
    requires { 0 < spacing }
    ensures many { IfOk result (λ gates. length gates.items ≡ length network.now.routers) }
    ensures nothing { IfOk result (λ gates. AllByRecursion (λ gate. given_by gate ≡ []) gates.items) }
    ensures asked { IfOk result
        (λ gates. map asked_of gates.items
        ≡ asked_for until (scripts_for network.now spacing snapshots network.now.routers)) }
{
    let mut gates = Vec::new(alloc);
    let mut left = snapshots;
    for router in network.routers() {
        let chores = opening(alloc, network, router.asn)?;
        gates.push(RunGate::new(chores, spacing, left, until))?;
        left = 0;
    }
    Ok(gates)
}
