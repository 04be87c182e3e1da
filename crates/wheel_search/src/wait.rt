//! What each path of a row waits for before it may be let go.

ghost use Rattle.std.specs.Prelude.{◌≡◌, ◌↔◌, ◌+◌, ◌^◌, ◌<◌, ◌∷◌, [], ℕ, List, IfOk, IsTrue, MatchOption, length, slice_index_or};
ghost use Rattle.std.specs.List.{All, Contains};
ghost use Rattle.ranked_policy.specs.Paths.{BeginsWith};
ghost use Rattle.ranked_policy.specs.Ways.{HasWay};
ghost use Rattle.wheel_search.specs.Chains.{IsChain, AreChains};
ghost use Rattle.wheel_search.specs.Rows.{AreLinksOf, AreRows, IsRow, IsWait, IsEachWait, AreWaits, RestStands, paths_of};
ghost use Rattle.wheel_search.specs.Waits.{wait_of, Comes};

use crate::chain::{KEYS, all_chains, key_of};
use crate::row::{Kind, Row};
use ranked_policy::laws::each_policy_is_an_order;
use ranked_policy::{Asn, LONGEST_PATH, Link, NetItems, Path, is_onward};
use stable_paths::Instance;
use std::alloc::{AllocError, Global};

/// What a path waits for.
#[derive(Clone, Copy, Debug)]
pub(crate) enum Wait {
    /// The path is not feasible.
    Never,
    /// For no other path: it is that of the origin alone.
    Nothing,
    /// For its rest, without which it is not feasible: the path at a place of another row.
    Rest {
        /// The row.
        row: usize,
        /// The place in the row.
        place: usize,
    },
}

// The place of the path by which another goes on from a router. Those with its key are looked at alone.
fn place_of_rest(paths: &[Path], chain: &[usize], router: Asn, path: &[Asn]) -> Option<usize>
    requires { IsChain paths.now chain.now }
    ensures { MatchOption result ((rest : List ℕ) → Contains paths.now rest → path.now ≡ router ∷ rest → ⊥)
        (λ place. (place < length paths.now) × (place + 1 < 2 ^ 64)
        × (path.now ≡ router ∷ slice_index_or paths.now place [])) }
{
    let [_first, onward @ ..] = path else {
        return None;
    };
    let key = key_of(onward);
    let mut last = chain[key];
    'places: while last > 0 {
        let place = last - 1;
        if is_onward(path, router, paths[place].as_slice()) {
            return Some(place);
        }
        last = chain[KEYS + place];
    }
    None
}

// Whether one of these links leads from a router to another.
fn leads_to(links: &[Link], router: Asn, peer: Asn) -> bool
    ensures { IsTrue result ↔ HasWay links.now router peer }
{
    for link in links {
        if link.other == peer && link.one == router {
            return true;
        }
    }
    false
}

// What a path of a row waits for that goes on over a peer; the links are those of the row's router.
fn wait_over(
    instance: &Instance,
    rows: &[Row],
    chains: &[NetItems<usize>],
    links: &[Link],
    row: &Row,
    peer: Asn,
    path: &[Asn],
) -> Wait
    requires rows { AreRows instance.now rows.now }
    requires chains { AreChains rows.now chains.now }
    requires links { AreLinksOf instance.now row.now.seat.router links.now }
    requires over { (rest : List ℕ) × (path.now ≡ row.now.seat.router ∷ peer ∷ rest) }
    requires stands { RestStands instance.now rows.now path.now }
    ensures { IsWait instance.now rows.now row.now path.now result }
{
    each_policy_is_an_order();
    let network = instance.network();
    let router = row.seat.router;
    let Some(next) = network.place(peer) else {
        return Wait::Never;
    };
    let chain = chains[next].as_slice();
    let Some(place) = place_of_rest(rows[next].paths(), chain, router, path) else {
        return Wait::Never;
    };
    if leads_to(links, router, peer) {
        Wait::Rest { row: next, place }
    } else {
        Wait::Never
    }
}

// What a path of a row waits for; the links are those of the row's router.
fn wait_for(
    instance: &Instance,
    rows: &[Row],
    chains: &[NetItems<usize>],
    links: &[Link],
    row: &Row,
    path: &[Asn],
) -> Wait
    requires rows { AreRows instance.now rows.now }
    requires chains { AreChains rows.now chains.now }
    requires links { AreLinksOf instance.now row.now.seat.router links.now }
    requires row { IsRow instance.now row.now }
    requires begins { BeginsWith path.now row.now.seat.router }
    requires stands { RestStands instance.now rows.now path.now }
    ensures { IsWait instance.now rows.now row.now path.now result }
{
    each_policy_is_an_order();
    let _network = instance.network();
    match path {
        [_first, peer, ..] => wait_over(instance, rows, chains, links, row, *peer, path),
        _ => match row.seat.kind {
            Kind::Origin => Wait::Nothing,
            Kind::Ranked(_) | Kind::Free => Wait::Never,
        },
    }
}

// What the paths of a row wait for.
fn waits_of(
    alloc: Global,
    instance: &Instance,
    rows: &[Row],
    chains: &[NetItems<usize>],
    row: &Row,
) -> Result<NetItems<Wait>, AllocError>
    requires rows { AreRows instance.now rows.now }
    requires chains { AreChains rows.now chains.now }
    requires row { IsRow instance.now row.now }
    requires stand { All (RestStands instance.now rows.now) (paths_of row.now) }
    ensures { IfOk result (λ waits. IsEachWait instance.now rows.now row.now waits) }
{
    let network = instance.network();
    let links = network.links_of(row.seat.router);
    let paths = row.paths();
    let mut waits = Vec::with_capacity(alloc, paths.len())?;
    for path in paths {
        waits.push(wait_for(instance, rows, chains, links, row, path.as_slice()))?;
    }
    Ok(NetItems::from_vec(waits))
}

/// What the paths of each row wait for.
pub(crate) fn all_waits(
    alloc: Global,
    instance: &Instance,
    rows: &[Row],
) -> Result<Vec<NetItems<Wait>>, AllocError>
    requires { AreRows instance.now rows.now }
    ensures { IfOk result (λ waits. AreWaits instance.now rows.now waits.items) }
{
    each_policy_is_an_order();
    let _network = instance.network();
    let chains = all_chains(alloc, rows)?;
    let mut waits = Vec::with_capacity(alloc, rows.len())?;
    for row in rows {
        waits.push(waits_of(alloc, instance, rows, chains.as_slice(), row)?)?;
    }
    Ok(waits)
}

// What the path at a place of a row waits for.
pub(crate) fn wait_at(waits: &[NetItems<Wait>], row: usize, place: usize) -> Wait
    ensures { result ≡ wait_of waits.now row place }
{
    if row >= waits.len() {
        return Wait::Never;
    }
    let of_row = waits[row].as_slice();
    if place < of_row.len() {
        of_row[place]
    } else {
        Wait::Never
    }
}

/// Whether a path is feasible: from rest to rest it comes to the origin.
pub(crate) fn comes(waits: &[NetItems<Wait>], row: usize, place: usize) -> bool
    ensures { IsTrue result ↔ Comes waits.now row place }
{
    let mut on = row;
    let mut at = place;
    for _router in 0..LONGEST_PATH {
        match wait_at(waits, on, at) {
            Wait::Never => return false,
            Wait::Nothing => return true,
            Wait::Rest { row, place } => {
                on = row;
                at = place;
            }
        }
    }
    false
}
