//! Whether links lead from each router to each other one.

ghost use Rattle.std.specs.Prelude.{◌≡◌, ◌≤◌, ◌<◌, ◌↔◌, ℕ, IsTrue, length, MatchOption};
ghost use Rattle.std.specs.List.{All, AllPairs};
ghost use Rattle.ranked_policy.specs.Plans.{numbers, IsRouter, IsConnected};
ghost use Rattle.ranked_policy.specs.Reaching.{IsMarked, LeadsTo, IsClosed};

use crate::limits::MOST_ROUTERS;
use crate::network::{Link, NetRouter};
use crate::places::place_of_router;

/// Whether links lead from each router to each other one: the routers that are reached from the
/// first are marked until no link leads on.
pub(crate) fn is_connected(routers: &[NetRouter], links: &[Link]) -> bool
    requires few { length routers.now ≤ MOST_ROUTERS }
    requires rising { AllPairs (λ u v. u < v) (numbers routers.now) }
    requires known { All (λ link. IsRouter routers.now link.one × IsRouter routers.now link.other) links.now }
    ensures { IsTrue result ↔ IsConnected routers.now links.now }
{
    let mut reached = [false; MOST_ROUTERS];
    reached[0] = true;
    'marking: while let Some(place) = next_place(routers, links, &reached) {
        reached[place] = true;
    }
    are_marked(&reached, routers.len())
}

// The place of a router that is not marked, and that a link joins with one that is.
fn next_place(routers: &[NetRouter], links: &[Link], reached: &[bool]) -> Option<usize>
    requires room { length routers.now ≤ length reached.now }
    requires rising { AllPairs (λ u v. u < v) (numbers routers.now) }
    requires known { All (λ link. IsRouter routers.now link.one × IsRouter routers.now link.other) links.now }
    ensures { MatchOption result (IsClosed routers.now links.now reached.now)
        (LeadsTo routers.now links.now reached.now) }
{
    for link in links {
        let Ok(one) = place_of_router(routers, link.one) else {
            return None;
        };
        let Ok(other) = place_of_router(routers, link.other) else {
            return None;
        };
        if reached[one] != reached[other] {
            if reached[one] {
                return Some(other);
            }
            return Some(one);
        }
    }
    None
}

// Whether the first of these are all marked.
fn are_marked(reached: &[bool], count: usize) -> bool
    requires { count ≤ length reached.now }
    ensures { IsTrue result ↔ ((k : ℕ) → k < count → IsMarked reached.now k) }
{
    for place in 0..count {
        if !reached[place] {
            return false;
        }
    }
    true
}
