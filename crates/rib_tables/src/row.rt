//! The row of one prefix, and the entry of one peer.

ghost use Rattle.std.specs.Prelude.{◌≡◌, ◌≢◌, ◌<◌, ◌≤◌, ◌↔◌, ◌∷◌, ℕ, [], true, drop, length, slice_get, Some, IfOk, IfSome, IsTrue, MatchOption, if◌then◌else◌};
ghost use Rattle.ranked_policy.specs.Plans.{Plan, IsNetwork, IsRouter};
ghost use Rattle.rib_tables.specs.declared.row.Row.{Row};
ghost use Rattle.rib_tables.specs.Words.{path_in};
ghost use Rattle.rib_tables.specs.Rows.{IsRow, IsRowBest, AreDecided, AreJudged, AllBest, BestStays, IsFirstUndecided};

use crate::line::Line;
use crate::place_set::PlaceSet;
use crate::word::Word;
use prefix_lanes::Prefix;
use ranked_policy::laws::each_policy_is_an_order;
use ranked_policy::{Asn, Chosen, MOST_PREFIXES, Path, is_onward, is_same_path};
use std::alloc::{AllocError, Global};

/// A peer of the router.
#[derive(Clone, Copy, Debug, PartialEq, Eq)]
pub struct Peer {
    /// Its number.
    pub asn: Asn,
    /// Whether the session with it is Established.
    pub up: bool,
}

/// All that the tables hold of one prefix. Words stand by the places of peers.
#[derive(Debug, Drop)]
pub struct Row<'a> {
    /// The prefix.
    pub prefix: Prefix,
    /// Whether the router is its origin.
    pub own: bool,
    /// The router's policy for it.
    pub policy: Chosen<'a>,
    /// Whether the router originates it now.
    pub originated: bool,
    /// The path that is kept for it.
    pub kept: Path,
    /// The words heard.
    pub heard: Line,
    /// The words sent.
    pub sent: Line,
}

impl Row<'_> {
    // The words sent, or those heard.
    pub(crate) fn line(&self, sent: bool) -> &Line
        ensures { result.now ≡ if sent then self.now.sent else self.now.heard }
    {
        if sent { &self.sent } else { &self.heard }
    }
}

// The best of the router's choices for the prefix of a row, without the router in front. `None` if
// the best is the empty path. It takes no memory.
pub(crate) fn best_way<'r>(router: Asn, peers: &[Peer], row: &'r Row) -> Option<&'r [Asn]>
    requires { length row.now.heard ≡ length peers.now }
    ensures { (net : Plan) → IsNetwork net → IsRouter net.routers router → IsRow net router peers.now row.now
        → MatchOption result (IsRowBest net router peers.now row.now [])
        (λ rest. IsRowBest net router peers.now row.now (router ∷ rest.now)) }
{
    each_policy_is_an_order();
    if row.own {
        return if row.originated { Some(&[]) } else { None };
    }
    let heard = row.heard.as_slice();
    let mut best: &[Asn] = &[];
    for (peer_at, peer) in peers.iter().enumerate() {
        if peer.up {
            best = row
                .policy
                .better_onward(router, heard[peer_at].path(), best);
        }
    }
    if best.is_empty() { None } else { Some(best) }
}

// Whether a kept path is the router and then this way; without a way, whether it is the empty path.
fn goes_on(kept: &[Asn], router: Asn, way: Option<&[Asn]>) -> bool
    ensures { IsTrue result ↔ MatchOption way.entry (kept.now ≡ []) (λ rest. kept.now ≡ router ∷ rest.now) }
{
    match way {
        Some(rest) => is_onward(kept, router, rest),
        None => kept.is_empty(),
    }
}

// The least place whose kept path is not the best, with the way of its best path. Each place outside the set is known
// to have its best path. Places that turn out to have it are taken out of the set. It takes no memory.
pub(crate) fn first_undecided<'r>(
    router: Asn,
    peers: &[Peer],
    rows: &'r [Row],
    dirty: &mut PlaceSet,
) -> Option<(usize, Option<&'r [Asn]>)>
    requires few { length rows.now ≤ MOST_PREFIXES }
    requires words { (i : ℕ) (r : Row) → slice_get rows.now i ≡ Some r → length r.heard ≡ length peers.now }
    ensures decided { (net : Plan) → AreJudged net router peers.now rows.now
        → AreDecided net router peers.now rows.now dirty.old → AreDecided net router peers.now rows.now dirty.new }
    ensures least { (net : Plan) → AreJudged net router peers.now rows.now
        → AreDecided net router peers.now rows.now dirty.old
        → MatchOption result (AllBest net router peers.now rows.now)
        (λ found. IsFirstUndecided net router peers.now rows.now found.0) }
    ensures best { (net : Plan) → AreJudged net router peers.now rows.now
        → IfSome result
        (λ found. (r : Row) → slice_get rows.now found.0 ≡ Some r
        → MatchOption found.1 (IsRowBest net router peers.now r [])
        (λ rest. IsRowBest net router peers.now r (router ∷ rest.now))) }
{
    each_policy_is_an_order();
    for _ in 0..MOST_PREFIXES {
        let prefix_at = dirty.first()?;
        if prefix_at >= rows.len() {
            return None;
        }
        let row = &rows[prefix_at];
        let way = best_way(router, peers, row);
        if !goes_on(row.kept.as_slice(), router, way) {
            return Some((prefix_at, way));
        }
        dirty.take_out(prefix_at);
    }
    None
}

// The path behind its first router.
fn onward(path: &[Asn]) -> &[Asn]
    ensures { result.now ≡ drop 1 path.now }
{
    match path {
        [_, rest @ ..] => rest,
        [] => &[],
    }
}

// Whether the word gives this way, and the way is not empty.
fn gives(word: &Word, way: &[Asn]) -> bool
    ensures { IsTrue result ↔ ((way.now ≢ []) × (path_in word.now ≡ way.now)) }
{
    !way.is_empty() && is_same_path(word.path(), way)
}

// Whether the kept path of a row, if it is the best, is known to stay so when the peer at a place
// says this word. It does if it does not go on by what the peer said last, and the word gives no
// better choice. A rule may list many paths, so its rows are left to the next decision.
pub(crate) fn stays_best(router: Asn, row: &Row, peer: usize, word: &Word) -> bool
    requires { peer < length row.now.heard }
    ensures { result ≡ true → BestStays router row.now peer word.now }
{
    each_policy_is_an_order();
    if row.own {
        return true;
    }
    let Chosen::Shortest(_) = row.policy else {
        return false;
    };
    let best = onward(row.kept.as_slice());
    if gives(&row.heard.as_slice()[peer], best) {
        return false;
    }
    let rest = word.path();
    rest.is_empty() || !row.policy.takes_onward(router, rest, best)
}

// The path of the router along a way; the empty path without a way.
pub(crate) fn path_along(
    alloc: Global,
    router: Asn,
    way: Option<&[Asn]>,
) -> Result<Path, AllocError>
    ensures { IfOk result (λ path. MatchOption way.entry (path ≡ []) (λ rest. path ≡ router ∷ rest.now)) }
{
    match way {
        Some(rest) => Path::from_router(alloc, router, rest),
        None => Ok(Path::new(alloc)),
    }
}
