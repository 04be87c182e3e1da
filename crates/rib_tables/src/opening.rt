//! The parts of a router's tables as it starts.

ghost use Rattle.std.specs.Prelude.{◌≡◌, ℕ, false, length, map, IfOk};
ghost use Rattle.std.specs.List.{All, AllPairs};
ghost use Rattle.ranked_policy.specs.Plans.{IsBefore};
ghost use Rattle.rib_tables.specs.Places.{has};
ghost use Rattle.rib_tables.specs.Rows.{IsFresh, AreFresh};

use crate::line::Line;
use crate::place_set::PlaceSet;
use crate::row::{Peer, Row};
use indexmap::IndexSet;
use prefix_lanes::Prefix;
use ranked_policy::{Asn, Network, Origin, Path, PolicyTable};
use std::alloc::{AllocError, Global};

// The prefixes, by their places.
pub(crate) fn keys_of(alloc: Global, origins: &[Origin]) -> Result<IndexSet<Prefix>, AllocError>
    requires { AllPairs (λ origin later. IsBefore origin.prefix later.prefix) origins.now }
    ensures { IfOk result (λ keys. keys.keys ≡ map (λ origin. origin.prefix) origins.now) }
{
    let mut keys = IndexSet::with_capacity(alloc, origins.len())?;
    for origin in origins {
        keys.insert(origin.prefix)?;
    }
    Ok(keys)
}

// The peers with these numbers, none of which is Established.
pub(crate) fn peers_down(alloc: Global, numbers: &[Asn]) -> Result<Vec<Peer>, AllocError>
    ensures { IfOk result (λ peers. peers.items ≡ map (λ number. record { asn = number; up = false }) numbers.now) }
{
    let peers = numbers
        .iter()
        .map(|number| Peer {
            asn: *number,
            up: false,
        })
        .collect(alloc)?;
    Ok(peers)
}

// An empty set for each peer: none waits for anything.
pub(crate) fn no_waits(alloc: Global, peers: usize) -> Result<Vec<PlaceSet>, AllocError>
    ensures len { IfOk result (λ waits. length waits.items ≡ peers) }
    ensures none { IfOk result (λ waits. All (λ waiting. (place : ℕ) → has waiting place ≡ false) waits.items) }
{
    let mut waits = Vec::with_capacity(alloc, peers)?;
    for _ in 0..peers {
        waits.push(PlaceSet::new())?;
    }
    Ok(waits)
}

// The row of a prefix, as a router starts.
fn new_row<'a>(
    alloc: Global,
    network: &'a Network,
    table: &PolicyTable<'a>,
    origin: &Origin,
    peers: usize,
) -> Result<Row<'a>, AllocError>
    ensures { IfOk result (IsFresh network.now.origins table.now peers origin.now) }
{
    let router = table.router();
    Ok(Row {
        prefix: origin.prefix,
        own: network.is_origin(router, &origin.prefix),
        policy: table.for_prefix(&origin.prefix),
        originated: false,
        kept: Path::new(alloc),
        heard: Line::new(alloc, peers)?,
        sent: Line::new(alloc, peers)?,
    })
}

// The rows of the network's prefixes, as a router starts.
pub(crate) fn rows_of<'a>(
    alloc: Global,
    network: &'a Network,
    table: &PolicyTable<'a>,
    peers: usize,
) -> Result<Vec<Row<'a>>, AllocError>
    ensures { IfOk result (λ rows. AreFresh network.now.origins table.now peers network.now.origins rows.items) }
{
    let origins = network.origins();
    let mut rows = Vec::with_capacity(alloc, origins.len())?;
    for origin in origins {
        rows.push(new_row(alloc, network, table, origin, peers)?)?;
    }
    Ok(rows)
}
