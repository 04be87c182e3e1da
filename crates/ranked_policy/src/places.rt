//! Where a number or a prefix stands in a list that rises.

ghost use Rattle.std.specs.Prelude.{◌≡◌, ◌≤◌, ◌<◌, ◌↔◌, ℕ, IsTrue, length, take, drop, slice_index, IsSome, IfSome, IfOk, IfErr};
ghost use Rattle.std.specs.List.{All, AllPairs, Contains, HoldsAt};
ghost use Rattle.ranked_policy.specs.Plans.{numbers, IsBefore, IsNamed, IsOrigin, IsRouter};
ghost use Rattle.ranked_policy.specs.Policies.{IsOriginOf};

use crate::network::{NetRouter, Origin};
use crate::path::Asn;
use prefix_lanes::Prefix;

// The place of the router with this number, or the place where it belongs.
pub(crate) fn place_of_router(routers: &[NetRouter], asn: Asn) -> Result<usize, usize>
    requires { AllPairs (λ u v. u < v) (numbers routers.now) }
    ensures found { IfOk result (λ i. (i < length routers.now) × HoldsAt (λ r. r.asn ≡ asn) routers.now i) }
    ensures bound { IfErr result (λ i. i ≤ length routers.now) }
    ensures before { IfErr result (λ i. All (λ r. r.asn < asn) (take i routers.now)) }
    ensures behind { IfErr result (λ i. All (λ r. asn < r.asn) (drop i routers.now)) }
{
    routers.binary_search_by_key(&asn, |router| router.asn)
}

// The place of the prefix, or the place where it belongs.
pub(crate) fn place_of_prefix(origins: &[Origin], prefix: &Prefix) -> Result<usize, usize>
    requires { AllPairs (λ origin later. IsBefore origin.prefix later.prefix) origins.now }
    ensures found { IfOk result
        (λ i. (i < length origins.now) × HoldsAt (λ origin. origin.prefix ≡ prefix.now) origins.now i) }
    ensures bound { IfErr result (λ i. i ≤ length origins.now) }
    ensures before { IfErr result (λ i. All (λ origin. IsBefore origin.prefix prefix.now) (take i origins.now)) }
    ensures behind { IfErr result (λ i. All (λ origin. IsBefore prefix.now origin.prefix) (drop i origins.now)) }
{
    origins.binary_search_by_key(&order_of(prefix), |origin| order_of(&origin.prefix))
}

// The key by which prefixes are ordered: the address, then the length.
fn order_of(prefix: &Prefix) -> (u32, u8)
    ensures { result ≡ (prefix.now.addr, prefix.now.len) }
{
    (prefix.addr(), prefix.len())
}

// The place that the number has if all numbers are consecutive; `None` if it does not stand there.
fn consecutive_place(routers: &[NetRouter], asn: Asn) -> Option<usize>
    ensures { IfSome result (λ i. (i < length routers.now) × HoldsAt (λ r. r.asn ≡ asn) routers.now i) }
{
    let first = routers.first()?;
    let place = asn.checked_sub(first.asn)? as usize;
    if place < routers.len() && routers[place].asn == asn {
        Some(place)
    } else {
        None
    }
}

// The place of the router with this number. Most networks number their routers without a gap, so
// the place that this gives is tried before a search.
pub(crate) fn find_router(routers: &[NetRouter], asn: Asn) -> Option<usize>
    requires { AllPairs (λ u v. u < v) (numbers routers.now) }
    ensures some { IsSome result ↔ IsRouter routers.now asn }
    ensures value { IfSome result (λ i. (i < length routers.now) × HoldsAt (λ r. r.asn ≡ asn) routers.now i) }
{
    if let Some(place) = consecutive_place(routers, asn) {
        return Some(place);
    }
    match place_of_router(routers, asn) {
        Ok(place) => Some(place),
        Err(_) => None,
    }
}

// The place of the prefix.
pub(crate) fn find_prefix(origins: &[Origin], prefix: &Prefix) -> Option<usize>
    requires { AllPairs (λ origin later. IsBefore origin.prefix later.prefix) origins.now }
    ensures some { IsSome result ↔ IsNamed origins.now prefix.now }
    ensures value { IfSome result
        (λ i. (i < length origins.now) × HoldsAt (λ origin. origin.prefix ≡ prefix.now) origins.now i) }
{
    match place_of_prefix(origins, prefix) {
        Ok(place) => Some(place),
        Err(_) => None,
    }
}

// The router with this number.
pub(crate) fn router_of(routers: &[NetRouter], asn: Asn) -> Option<&NetRouter>
    requires { AllPairs (λ u v. u < v) (numbers routers.now) }
    ensures some { IsSome result ↔ IsRouter routers.now asn }
    ensures value { IfSome result (λ router. (router.now.asn ≡ asn) × Contains routers.now router.now) }
{
    match find_router(routers, asn) {
        Some(place) => Some(&routers[place]),
        None => None,
    }
}

// The origin of the prefix, or none if the prefix is not named.
pub(crate) fn origin_of(origins: &[Origin], prefix: &Prefix) -> Option<Asn>
    requires { AllPairs (λ origin later. IsBefore origin.prefix later.prefix) origins.now }
    ensures { IsOriginOf origins.now prefix.now result }
{
    match find_prefix(origins, prefix) {
        Some(place) => Some(origins[place].router),
        None => None,
    }
}

// Whether the router is the origin of the prefix.
pub(crate) fn is_origin(origins: &[Origin], asn: Asn, prefix: &Prefix) -> bool
    requires { AllPairs (λ origin later. IsBefore origin.prefix later.prefix) origins.now }
    ensures { IsTrue result ↔ IsOrigin origins.now asn prefix.now }
{
    match origin_of(origins, prefix) {
        Some(router) => router == asn,
        None => false,
    }
}
