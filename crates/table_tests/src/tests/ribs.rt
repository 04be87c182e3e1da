//! The tables of one router, call by call.

ghost use Rattle.std.specs.Prelude.{◌≡◌, map, slice_get, Some, IfSome, IsTrue};
ghost use Rattle.ranked_policy.specs.Peers.{peers};

use super::{At, Plan, network};
use bgp_codec::{Attrs, Items, Numbers, Segment, SegmentKind, Update};
use prefix_lanes::Prefix;
use ranked_policy::{Asn, Network, Path};
use rib_tables::{Rib, Word};
use std::alloc::{AllocError, Global};
use std::process::Abort;
use std::test::Fail;

mod against_lists;
mod lists;

/// 10.1.0.0/16, the least; its origin is 1.
const SHORT: At = (0x0a01_0000, 16);

/// 10.1.0.0/24: the same address, and longer; its origin is 1.
const LONG: At = (0x0a01_0000, 24);

/// 10.2.0.0/16, the greatest; its origin is 4.
const FAR: At = (0x0a02_0000, 16);

/// 10.3.0.0/16, which nobody originates.
const STRAY: At = (0x0a03_0000, 16);

/// An AS_PATH.
#[derive(Clone, Copy)]
enum Along<'a> {
    /// None.
    Nothing,
    /// One AS_SEQUENCE.
    Path(&'a [Asn]),
    /// One AS_SET.
    Set(&'a [Asn]),
    /// Two AS_SEQUENCEs.
    Two(&'a [Asn], &'a [Asn]),
}

/// What is done with a prefix, or asked of it.
#[derive(Clone, Copy)]
enum Of<'a> {
    /// The router originates it.
    Originates,
    /// The router originates it no longer.
    Withdraws,
    /// The router tells a peer the kept path.
    Tells(Asn),
    /// A peer says a path, by the place of the peer.
    SaysAt(Asn, &'a [Asn]),
    /// The path heard last from a peer: the empty path where it gives none.
    Heard(Asn, &'a [Asn]),
    /// Nothing is heard from a peer.
    Unheard(Asn),
    /// A word is heard that gives no path.
    HeardOther(Asn),
    /// The path told last to a peer.
    Sent(Asn, &'a [Asn]),
    /// Nothing is told to a peer.
    Unsent(Asn),
    /// The path that is kept.
    Kept(&'a [Asn]),
    /// The same, by the place of the prefix.
    KeptAt(&'a [Asn]),
    /// The best of the choices.
    Best(&'a [Asn]),
    /// Whether it is originated.
    Originated(bool),
    /// The same, by the place of the prefix.
    OriginatedAt(bool),
}

/// A row of a case: what is done to the tables of a router, or asked of them.
#[derive(Clone, Copy)]
enum Row<'a> {
    /// Of a prefix.
    At(At, Of<'a>),
    /// A peer announces prefixes along a path, and withdraws others.
    Hears(Asn, Along<'a>, &'a [At], &'a [At]),
    /// The same, by the place of the peer.
    HearsAt(Asn, Along<'a>, &'a [At], &'a [At]),
    /// The session with a peer is Established.
    ComesUp(Asn),
    /// The same, by the place of the peer.
    ComesUpAt(Asn),
    /// The session with a peer is left.
    Forgets(Asn),
    /// The same, by the place of the peer.
    ForgetsAt(Asn),
    /// The router decides once: this prefix, or none.
    Decides(Option<At>),
    /// The router starts again.
    Clears,
    /// The prefix that is to be decided.
    Dirty(Option<At>),
    /// The prefix that a peer waits for.
    Waits(Asn, Option<At>),
    /// The same with its place, by the place of the peer.
    WaitsAt(Asn, Option<(usize, At)>),
    /// Whether some peer waits.
    Awaited(bool),
    /// Whether anything is still to be done.
    Pending(bool),
}

/// Takes the tables of a router, as it starts, through these rows.
struct Case {
    name: &'static str,
    router: Asn,
    rows: &'static [Row<'static>],
}

const ORIGINS: &[(Asn, At)] = &[(4, FAR), (1, LONG), (1, SHORT)];

/// A ring of four routers, 1 - 2 - 4 - 3 - 1.
static RING: Plan = Plan {
    routers: 4,
    links: &[(1, 2), (2, 4), (4, 3), (3, 1)],
    origins: ORIGINS,
    rules: &[],
};

const TEN_LONG: [Asn; 10] = [2, 4, 3, 5, 6, 7, 8, 9, 10, 1];

#[rattlefmt::skip]
static CASES: [Case; 13] = [
    // The calls by place: those of the peers 2 and 3 of router 4 are 0 and 1, those of the prefixes 0 to 2.
    Case { name: "by place", router: 4, rows: &[
        Row::ComesUpAt(3),
        Row::ComesUpAt(2),
        Row::At(SHORT, Of::SaysAt(3, &TEN_LONG)),
        Row::At(SHORT, Of::Heard(3, &TEN_LONG)),
        Row::At(LONG, Of::SaysAt(2, &[2, 1])),
        Row::At(LONG, Of::Heard(2, &[2, 1])),
        Row::At(STRAY, Of::SaysAt(3, &[3, 1])),
        Row::Decides(Some(LONG)),
        Row::At(LONG, Of::KeptAt(&[4, 2, 1])),
        Row::WaitsAt(3, Some((1, LONG))),
        Row::At(LONG, Of::Tells(3)),
        Row::WaitsAt(3, None),
        Row::WaitsAt(2, Some((1, LONG))),
        Row::At(LONG, Of::Sent(3, &[4, 2, 1])),
        Row::At(FAR, Of::OriginatedAt(false)),
        Row::At(FAR, Of::Originates),
        Row::At(FAR, Of::OriginatedAt(true)),
        Row::HearsAt(2, Along::Path(&[2, 3, 1]), &[SHORT], &[LONG]),
        Row::At(SHORT, Of::Heard(2, &[2, 3, 1])),
        Row::At(SHORT, Of::Heard(3, &TEN_LONG)),
        Row::ForgetsAt(3),
        Row::At(LONG, Of::Unsent(3)),
        Row::At(SHORT, Of::Unheard(3)),
        Row::At(SHORT, Of::Heard(2, &[2, 3, 1])),
    ] },
    // The words of a peer follow its UPDATEs: the last of three mentions stays.
    Case { name: "the last of three mentions stays", router: 4, rows: &[
        Row::Hears(2, Along::Path(&[2, 1]), &[SHORT, LONG], &[]),
        Row::Hears(2, Along::Nothing, &[], &[SHORT]),
        Row::At(SHORT, Of::Unheard(2)),
        Row::At(LONG, Of::Heard(2, &[2, 1])),
        Row::Hears(2, Along::Path(&[2, 4, 3, 1]), &[SHORT], &[]),
        Row::At(SHORT, Of::Heard(2, &[2, 4, 3, 1])),
        Row::At(LONG, Of::Heard(2, &[2, 1])),
        Row::At(SHORT, Of::Unheard(3)),
        Row::At(SHORT, Of::Unsent(2)),
    ] },
    // A path of more than eight numbers takes memory of its own.
    Case { name: "a long path", router: 4, rows: &[
        Row::ComesUp(2),
        Row::Hears(2, Along::Path(&TEN_LONG), &[FAR, SHORT], &[]),
        Row::At(FAR, Of::Heard(2, &TEN_LONG)),
        Row::At(SHORT, Of::Heard(2, &TEN_LONG)),
        Row::Hears(2, Along::Path(&[2, 3, 5, 6, 7, 8, 9, 10, 1]), &[LONG], &[]),
        Row::Decides(Some(LONG)),
        Row::At(LONG, Of::Tells(3)),
        Row::At(LONG, Of::Sent(3, &[4, 2, 3, 5, 6, 7, 8, 9, 10, 1])),
    ] },
    // Within one UPDATE the announcement wins.
    Case { name: "within an update the announcement wins", router: 4, rows: &[
        Row::Hears(3, Along::Path(&[3, 4, 2, 1]), &[SHORT, LONG], &[]),
        Row::Hears(3, Along::Path(&[3, 1]), &[SHORT], &[SHORT, LONG]),
        Row::At(SHORT, Of::Heard(3, &[3, 1])),
        Row::At(LONG, Of::Unheard(3)),
    ] },
    // A set is a word that gives no path, and no choice.
    Case { name: "a set gives no choice", router: 4, rows: &[
        Row::ComesUp(2),
        Row::ComesUp(3),
        Row::Hears(2, Along::Set(&[2, 1]), &[SHORT], &[]),
        Row::At(SHORT, Of::HeardOther(2)),
        Row::At(SHORT, Of::Best(&[])),
        Row::Dirty(None),
    ] },
    // Several segments, and no AS_PATH, give no choice.
    Case { name: "several segments and none", router: 4, rows: &[
        Row::Hears(2, Along::Two(&[2], &[1]), &[LONG], &[]),
        Row::Hears(3, Along::Nothing, &[LONG], &[]),
        Row::At(LONG, Of::HeardOther(2)),
        Row::At(LONG, Of::HeardOther(3)),
    ] },
    // A prefix that nobody originates changes nothing.
    Case { name: "a prefix of nobody changes nothing", router: 4, rows: &[
        Row::Hears(2, Along::Path(&[2, 1]), &[STRAY, SHORT], &[]),
        Row::At(STRAY, Of::Unheard(2)),
        Row::At(STRAY, Of::Kept(&[])),
        Row::At(STRAY, Of::Originated(false)),
        Row::At(SHORT, Of::Heard(2, &[2, 1])),
    ] },
    // One of two peers is forgotten: what it said, what it was told, and that it was Established.
    Case { name: "one of two peers is forgotten", router: 4, rows: &[
        Row::ComesUp(2),
        Row::ComesUp(3),
        Row::Hears(2, Along::Path(&[2, 1]), &[SHORT, LONG], &[]),
        Row::Hears(3, Along::Path(&[3, 1]), &[SHORT, LONG], &[]),
        Row::Decides(Some(SHORT)),
        Row::At(SHORT, Of::Tells(2)),
        Row::At(SHORT, Of::Tells(3)),
        Row::Forgets(2),
        Row::At(SHORT, Of::Unheard(2)),
        Row::At(LONG, Of::Unheard(2)),
        Row::At(SHORT, Of::Unsent(2)),
        Row::At(LONG, Of::Heard(3, &[3, 1])),
        Row::At(SHORT, Of::Sent(3, &[4, 2, 1])),
        Row::Decides(Some(SHORT)),
        Row::At(SHORT, Of::Kept(&[4, 3, 1])),
    ] },
    // The best is over Established peers alone: the shorter path first, then the lesser number.
    Case { name: "the best is over established peers", router: 4, rows: &[
        Row::Hears(2, Along::Path(&[2, 1]), &[SHORT], &[]),
        Row::Hears(3, Along::Path(&[3, 1]), &[SHORT], &[]),
        Row::Hears(2, Along::Path(&[2, 4, 3, 1]), &[LONG], &[]),
        Row::At(SHORT, Of::Best(&[])),
        Row::ComesUp(3),
        Row::At(SHORT, Of::Best(&[4, 3, 1])),
        Row::ComesUp(2),
        Row::At(SHORT, Of::Best(&[4, 2, 1])),
        Row::At(LONG, Of::Best(&[])),
    ] },
    // An origin has itself alone while it originates the prefix, whatever is heard.
    Case { name: "an origin keeps itself", router: 1, rows: &[
        Row::ComesUp(2),
        Row::ComesUp(3),
        Row::Hears(2, Along::Path(&[2, 1]), &[SHORT, LONG], &[]),
        Row::At(LONG, Of::Originates),
        Row::At(LONG, Of::Best(&[1])),
        Row::At(SHORT, Of::Best(&[])),
        Row::At(LONG, Of::Originated(true)),
        Row::At(SHORT, Of::Originated(false)),
        Row::At(LONG, Of::Withdraws),
        Row::At(LONG, Of::Best(&[])),
    ] },
    // The least prefix is decided first, by address and then by length.
    Case { name: "prefixes are decided in order", router: 4, rows: &[
        Row::ComesUp(2),
        Row::Decides(None),
        Row::Hears(2, Along::Path(&[2, 1]), &[FAR, LONG, SHORT], &[]),
        Row::At(FAR, Of::Originates),
        Row::Dirty(Some(SHORT)),
        Row::At(SHORT, Of::Kept(&[])),
        Row::Decides(Some(SHORT)),
        Row::Decides(Some(LONG)),
        Row::Decides(Some(FAR)),
        Row::Decides(None),
        Row::At(SHORT, Of::Kept(&[4, 2, 1])),
        Row::At(FAR, Of::Kept(&[4])),
        Row::Clears,
        Row::At(FAR, Of::Kept(&[])),
        Row::At(FAR, Of::Originated(false)),
        Row::Dirty(Some(SHORT)),
    ] },
    // A peer waits for the least prefix whose last word is not the kept path, while it is Established.
    Case { name: "prefixes wait in order", router: 4, rows: &[
        Row::ComesUp(2),
        Row::Waits(2, None),
        Row::Awaited(false),
        Row::Pending(false),
        Row::Hears(2, Along::Path(&[2, 1]), &[LONG, SHORT], &[]),
        Row::Decides(Some(SHORT)),
        Row::Decides(Some(LONG)),
        Row::Waits(2, Some(SHORT)),
        Row::Awaited(true),
        Row::Pending(true),
        Row::At(SHORT, Of::Tells(2)),
        Row::Waits(2, Some(LONG)),
        Row::Waits(3, None),
        Row::ComesUp(3),
        Row::Waits(3, Some(SHORT)),
    ] },
    // A peer waits where it was told another path, or a path where none is kept now.
    Case { name: "a peer waits for a withdrawal", router: 4, rows: &[
        Row::ComesUp(2),
        Row::Hears(2, Along::Path(&[2, 1]), &[LONG], &[]),
        Row::Decides(Some(LONG)),
        Row::At(LONG, Of::Tells(2)),
        Row::Waits(2, None),
        Row::Hears(2, Along::Path(&[2, 3, 1]), &[LONG], &[]),
        Row::Decides(Some(LONG)),
        Row::Waits(2, Some(LONG)),
        Row::Hears(2, Along::Nothing, &[], &[LONG]),
        Row::Decides(Some(LONG)),
        Row::Waits(2, Some(LONG)),
        Row::At(LONG, Of::Tells(2)),
        Row::Waits(2, None),
        Row::Pending(false),
    ] },
];

fn segment(alloc: Global, kind: SegmentKind, path: &[Asn]) -> Result<Segment, AllocError> {
    let numbers = Numbers::from_slice(alloc, path)?;
    Ok(Segment { kind, numbers })
}

// The AS_PATH of an UPDATE.
fn as_path(alloc: Global, along: &Along) -> Result<Items<Segment>, AllocError> {
    match along {
        Along::Nothing => Ok(Items::new(alloc)),
        Along::Path(path) => Ok(Items::one(segment(alloc, SegmentKind::AsSequence, path)?)),
        Along::Set(numbers) => Ok(Items::one(segment(alloc, SegmentKind::AsSet, numbers)?)),
        Along::Two(first, second) => {
            let mut segments = Vec::new(alloc);
            segments.push(segment(alloc, SegmentKind::AsSequence, first)?)?;
            segments.push(segment(alloc, SegmentKind::AsSequence, second)?)?;
            Ok(Items::from_vec(segments))
        }
    }
}

fn prefixes(alloc: Global, list: &[At]) -> Result<Items<Prefix>, AllocError> {
    let mut prefixes = Vec::new(alloc);
    for &(addr, len) in list {
        if let Some(prefix) = Prefix::new(addr, len) {
            prefixes.push(prefix)?;
        }
    }
    Ok(Items::from_vec(prefixes))
}

fn attrs(alloc: Global, along: &Along, path: Items<Segment>) -> Attrs {
    Attrs {
        origin: Some(0),
        path: if matches!(along, Along::Nothing) {
            None
        } else {
            Some(path)
        },
        next_hop: Some(0x0a00_0001),
        med: None,
        local_pref: None,
        atomic: false,
        aggregator: None,
        other: Items::new(alloc),
    }
}

// An UPDATE that announces these prefixes along this path, and withdraws those.
fn updates(
    alloc: Global,
    along: &Along,
    nlri: &[At],
    withdrawn: &[At],
) -> Result<Update, AllocError> {
    let withdrawn = prefixes(alloc, withdrawn)?;
    let nlri = prefixes(alloc, nlri)?;
    let attrs = attrs(alloc, along, as_path(alloc, along)?);
    Ok(Update {
        withdrawn,
        attrs,
        nlri,
    })
}

// The tables of a router, as it starts.
fn tables(alloc: Global, net: &Network, router: Asn) -> Option<Rib<'_>> {
    if !net.has_router(router) {
        return None;
    }
    Rib::new(alloc, net, router).ok()
}

// Whether a peer stands at a place among the router's peers.
fn is_peer_at(net: &Network, router: Asn, place: usize, peer: Asn) -> bool
    ensures { IsTrue result → slice_get (peers net.now router) place ≡ Some peer }
{
    match net.links_of(router).get(place) {
        Some(link) => link.other == peer,
        None => false,
    }
}

// The place of a peer among the router's peers.
fn peer_place(rib: &Rib, peer: Asn) -> Option<usize>
    ensures { IfSome result (λ place. slice_get (peers rib.now.net rib.now.router) place ≡ Some peer) }
{
    for place in 0..8usize {
        if is_peer_at(rib.network(), rib.router(), place, peer) {
            return Some(place);
        }
    }
    None
}

// The place of a prefix among those of the network.
fn prefix_place(rib: &Rib, prefix: &Prefix) -> Option<usize>
    ensures { IfSome result (λ at. slice_get (map (λ origin. origin.prefix) rib.now.net.origins) at ≡ Some prefix.now) }
{
    rib.network().prefix_place(prefix)
}

/// What happens to the session with a peer.
#[derive(Clone, Copy)]
enum OfPeer<'a> {
    Hears(&'a Update),
    ComesUp,
    Forgets,
}

// Each of these makes one call, and answers whether it was made and not refused. It ensures nothing, so that
// the call is not carried along from one row to the next.
fn by_number(rib: &mut Rib, peer: Asn, of: &OfPeer) -> bool {
    if !rib.network().linked(rib.router(), peer) {
        return false;
    }
    match of {
        OfPeer::Hears(update) => rib.hear(peer, update).is_ok(),
        OfPeer::ComesUp => {
            rib.come_up(peer);
            true
        }
        OfPeer::Forgets => {
            rib.forget(peer);
            true
        }
    }
}

fn by_place(rib: &mut Rib, peer: Asn, of: &OfPeer) -> bool {
    let Some(place) = peer_place(rib, peer) else {
        return false;
    };
    match of {
        OfPeer::Hears(update) => rib.hear_at(place, peer, update).is_ok(),
        OfPeer::ComesUp => {
            rib.come_up_at(place, peer);
            true
        }
        OfPeer::Forgets => {
            rib.forget_at(place, peer);
            true
        }
    }
}

// A peer says an UPDATE, for which there was memory.
fn says(rib: &mut Rib, peer: Asn, is_by_place: bool, update: Result<Update, AllocError>) -> bool {
    match update {
        Ok(update) => {
            if is_by_place {
                by_place(rib, peer, &OfPeer::Hears(&update))
            } else {
                by_number(rib, peer, &OfPeer::Hears(&update))
            }
        }
        Err(_) => false,
    }
}

fn tells(rib: &mut Rib, peer: Asn, prefix: &Prefix) -> bool {
    match (peer_place(rib, peer), prefix_place(rib, prefix)) {
        (Some(place), Some(at)) => rib.tell_at(place, peer, at, prefix).is_ok(),
        _ => false,
    }
}

fn says_path_at(rib: &mut Rib, peer: Asn, prefix: &Prefix, path: &[Asn]) -> bool {
    match peer_place(rib, peer) {
        Some(place) => rib.hear_path_at(place, peer, prefix, path).is_ok(),
        None => false,
    }
}

// Whether it is this prefix, or none.
fn is_at(found: Option<Prefix>, wanted: Option<At>) -> bool {
    match (found, wanted) {
        (Some(found), Some((addr, len))) => Prefix::new(addr, len) == Some(found),
        (None, None) => true,
        _ => false,
    }
}

fn waits_for(rib: &Rib, peer: Asn, wanted: Option<At>) -> bool {
    rib.network().linked(rib.router(), peer) && is_at(rib.waiting(peer), wanted)
}

fn waits_at(rib: &Rib, peer: Asn, wanted: Option<(usize, At)>) -> bool {
    let Some(place) = peer_place(rib, peer) else {
        return false;
    };
    match (rib.waiting_at(place, peer), wanted) {
        (Some((at, found)), Some((place, named))) => at == place && is_at(Some(found), Some(named)),
        (None, None) => true,
        _ => false,
    }
}

fn best_is(alloc: Global, rib: &Rib, prefix: &Prefix, path: &[Asn]) -> bool {
    if !rib.network().names(prefix) {
        return false;
    }
    match rib.best(alloc, prefix) {
        Ok(found) => found.as_slice() == path,
        Err(_) => false,
    }
}

fn decides(alloc: Global, rib: &mut Rib, wanted: Option<At>) -> bool {
    match rib.decide(alloc) {
        Ok(found) => is_at(found, wanted),
        Err(_) => false,
    }
}

// The path of a word: the empty path where there is none.
fn path_of(word: Option<&Word>) -> &[Asn] {
    match word {
        Some(word) => word.path(),
        None => &[],
    }
}

// Whether it is done of a prefix, or so.
fn is_of(alloc: Global, rib: &mut Rib, prefix: &Prefix, of: &Of) -> bool {
    match of {
        Of::Originates => {
            let may = rib.network().is_origin(rib.router(), prefix);
            if may {
                rib.originate(prefix);
            }
            may
        }
        Of::Withdraws => {
            let may = rib.network().is_origin(rib.router(), prefix);
            if may {
                rib.withdraw(prefix);
            }
            may
        }
        Of::Tells(peer) => tells(rib, *peer, prefix),
        Of::SaysAt(peer, path) => says_path_at(rib, *peer, prefix, path),
        Of::Heard(peer, path) => path_of(rib.word_heard(*peer, prefix)) == *path,
        Of::Unheard(peer) => rib.word_heard(*peer, prefix).is_none(),
        Of::HeardOther(peer) => matches!(rib.word_heard(*peer, prefix), Some(Word::Other)),
        Of::Sent(peer, path) => path_of(rib.word_sent(*peer, prefix)) == *path,
        Of::Unsent(peer) => rib.word_sent(*peer, prefix).is_none(),
        Of::Kept(path) => rib.path(prefix) == *path,
        Of::KeptAt(path) => {
            match prefix_place(rib, prefix) {
                Some(at) => rib.path_at(at, prefix) == *path,
                None => false,
            }
        }
        Of::Best(path) => best_is(alloc, rib, prefix, path),
        Of::Originated(wanted) => rib.is_originated(prefix) == *wanted,
        Of::OriginatedAt(wanted) => {
            match prefix_place(rib, prefix) {
                Some(at) => rib.is_originated_at(at, prefix) == *wanted,
                None => false,
            }
        }
    }
}

// Whether a row is done, or so.
fn is_so(alloc: Global, rib: &mut Rib, row: &Row) -> bool {
    match row {
        Row::At((addr, len), of) => {
            match Prefix::new(*addr, *len) {
                Some(prefix) => is_of(alloc, rib, &prefix, of),
                None => false,
            }
        }
        Row::Hears(peer, along, nlri, withdrawn) => {
            says(rib, *peer, false, updates(alloc, along, nlri, withdrawn))
        }
        Row::HearsAt(peer, along, nlri, withdrawn) => {
            says(rib, *peer, true, updates(alloc, along, nlri, withdrawn))
        }
        Row::ComesUp(peer) => by_number(rib, *peer, &OfPeer::ComesUp),
        Row::ComesUpAt(peer) => by_place(rib, *peer, &OfPeer::ComesUp),
        Row::Forgets(peer) => by_number(rib, *peer, &OfPeer::Forgets),
        Row::ForgetsAt(peer) => by_place(rib, *peer, &OfPeer::Forgets),
        Row::Decides(wanted) => decides(alloc, rib, *wanted),
        Row::Clears => {
            rib.clear();
            true
        }
        Row::Dirty(wanted) => is_at(rib.dirty(), *wanted),
        Row::Waits(peer, wanted) => waits_for(rib, *peer, *wanted),
        Row::WaitsAt(peer, wanted) => waits_at(rib, *peer, *wanted),
        Row::Awaited(wanted) => rib.has_waiting_peer() == *wanted,
        Row::Pending(wanted) => rib.is_pending() == *wanted,
    }
}

fn all_are_so(rt: &impl Abort, alloc: Global, rib: &mut Rib, case: &Case) {
    for (i, row) in case.rows.iter().enumerate() {
        assert!(rt; is_so(alloc, rib, row), "{}: row {i}", case.name);
    }
}

fn tries(rt: &impl Abort, alloc: Global, net: &Network, case: &Case) {
    match tables(alloc, net, case.router) {
        Some(mut rib) => all_are_so(rt, alloc, &mut rib, case),
        None => panic!(rt; "{}: no tables", case.name),
    }
}

#[test]
fn tables_answer_call_by_call(rt: HostRuntime) -> Result<(), Fail> {
    let net = network(rt.alloc(), &RING)?;
    for case in &CASES {
        tries(&rt, rt.alloc(), &net, case);
    }
    Ok(())
}
