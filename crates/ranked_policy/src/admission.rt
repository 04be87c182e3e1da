//! The checks of each call, in the order in which they refuse.

ghost use Rattle.std.specs.Prelude.{◌≡◌, ◌≢◌, ◌≤◌, ◌<◌, ◌↔◌, ℕ, IsTrue, length, MatchResult};
ghost use Rattle.std.specs.List.{All, AllPairs, Any, Contains, count_by};
ghost use Rattle.ranked_policy.specs.Paths.{IsSimple, BeginsWith};
ghost use Rattle.ranked_policy.specs.Plans.{numbers, IsRouter, IsOrigin, IsNamed, Linked, Joins, touches, IsSettings};
ghost use Rattle.bgp_values.specs.Ranges.{IsAsn, IsUnicast};
ghost use Rattle.ranked_policy.specs.Ways.{AreWays};
ghost use Rattle.ranked_policy.specs.Adding.{IsJudged, RouterMeets, LinkMeets, OriginMeets, RuleMeets};

use crate::limits::{
    GREATEST_CUT, GREATEST_PIPE, LONGEST_PATH, MOST_LINKS, MOST_PATHS, MOST_PREFIXES, MOST_ROUTERS,
    MOST_RULES,
};
use crate::network::{Link, NetRouter, Origin, RankRule, Settings};
use crate::path::{Asn, Path};
use crate::places::find_router;
use crate::policy::{begins_with, is_listed, is_simple};
use crate::refusal::NetError;
use crate::ways::Ways;
use bgp_values::{Width, is_asn, is_hold_time, is_unicast};
use prefix_lanes::Prefix;

// Whether each setting is in its range.
pub(crate) fn is_settings(settings: &Settings) -> bool
    ensures { IsTrue result ↔ IsSettings settings.now }
{
    let _restart = settings.restart;
    is_hold_time(settings.hold)
        && 1 <= settings.cut
        && settings.cut <= GREATEST_CUT
        && 1 <= settings.pipe
        && settings.pipe <= GREATEST_PIPE
}

// Whether a router can have the number and the identifier.
fn is_numbered(width: Width, asn: Asn, id: u32) -> bool
    ensures { IsTrue result ↔ (IsAsn width asn × IsUnicast id) }
{
    is_asn(width, u64::from(asn)) && is_unicast(id)
}

// Whether no router has the number or the identifier.
fn is_new_router(routers: &[NetRouter], asn: Asn, id: u32) -> bool
    ensures { IsTrue result ↔ All (λ r. (r.asn ≢ asn) × (r.id ≢ id)) routers.now }
{
    for router in routers {
        if router.asn == asn || router.id == id {
            return false;
        }
    }
    true
}

pub(crate) fn judge_router(
    width: Width,
    routers: &[NetRouter],
    asn: Asn,
    id: u32,
) -> Result<(), NetError>
    ensures { IsJudged (RouterMeets width routers.now asn id) result }
{
    if !is_new_router(routers, asn, id) {
        return Err(NetError::Repeated);
    }
    if routers.len() >= MOST_ROUTERS {
        return Err(NetError::Limit);
    }
    if !is_numbered(width, asn, id) {
        return Err(NetError::BadNumber);
    }
    Ok(())
}

// Whether a router has the number. Routers rise by number, so it is searched for.
fn is_router(routers: &[NetRouter], asn: Asn) -> bool
    requires { AllPairs (λ u v. u < v) (numbers routers.now) }
    ensures { IsTrue result ↔ IsRouter routers.now asn }
{
    find_router(routers, asn).is_some()
}

// Whether a link joins the two. The link is looked up among the ways.
fn is_linked(_links: &[Link], ways: &Ways, a: Asn, b: Asn) -> bool
    requires { AreWays _links.now ways.now }
    ensures { IsTrue result ↔ Linked _links.now a b }
{
    ways.has(a, b)
}

// How many links the router has.
fn links_of(links: &[Link], asn: Asn) -> usize
    ensures { result ≡ count_by (touches asn) links.now }
{
    links
        .iter()
        .filter(|link| link.one == asn || link.other == asn)
        .count()
}

pub(crate) fn judge_link(
    routers: &[NetRouter],
    links: &[Link],
    ways: &Ways,
    a: Asn,
    b: Asn,
) -> Result<(), NetError>
    requires rising { AllPairs (λ u v. u < v) (numbers routers.now) }
    requires ways { AreWays links.now ways.now }
    ensures { IsJudged (LinkMeets routers.now links.now a b) result }
{
    if a == b || is_linked(links, ways, a, b) {
        return Err(NetError::Repeated);
    }
    if !is_router(routers, a) || !is_router(routers, b) {
        return Err(NetError::UnknownRouter);
    }
    if links_of(links, a) >= MOST_LINKS || links_of(links, b) >= MOST_LINKS {
        return Err(NetError::Limit);
    }
    Ok(())
}

// Whether the prefix is named.
pub(crate) fn is_named(origins: &[Origin], prefix: &Prefix) -> bool
    ensures { IsTrue result ↔ IsNamed origins.now prefix.now }
{
    for origin in origins {
        if origin.prefix == *prefix {
            return true;
        }
    }
    false
}

pub(crate) fn judge_origin(
    routers: &[NetRouter],
    origins: &[Origin],
    asn: Asn,
    prefix: &Prefix,
) -> Result<(), NetError>
    requires { AllPairs (λ u v. u < v) (numbers routers.now) }
    ensures { IsJudged (OriginMeets routers.now origins.now asn prefix.now) result }
{
    if is_named(origins, prefix) {
        return Err(NetError::Repeated);
    }
    if !is_router(routers, asn) {
        return Err(NetError::UnknownRouter);
    }
    if origins.len() >= MOST_PREFIXES {
        return Err(NetError::Limit);
    }
    Ok(())
}

// Whether each path is simple and begins with the router.
fn are_simple(router: Asn, paths: &[Path]) -> bool
    ensures { IsTrue result ↔ All (λ path. BeginsWith path router × IsSimple path) paths.now }
{
    for path in paths {
        let numbers = path.as_slice();
        if !begins_with(router, numbers) || !is_simple(numbers) {
            return false;
        }
    }
    true
}

// Whether each path is within its limit.
fn are_short(paths: &[Path]) -> bool
    ensures { IsTrue result ↔ All (λ path. length path ≤ LONGEST_PATH) paths.now }
{
    for path in paths {
        if path.len() > LONGEST_PATH {
            return false;
        }
    }
    true
}

// Whether no path is there twice.
fn are_distinct(paths: &[Path]) -> bool
    ensures { IsTrue result ↔ AllPairs (λ path later. path ≢ later) paths.now }
{
    for (i, path) in paths.iter().enumerate() {
        let (before, _) = paths.split_at(i);
        if is_listed(before, path) {
            return false;
        }
    }
    true
}

// Whether none of these rules is for the prefix.
fn is_new_rule(rules: &[RankRule], prefix: &Prefix) -> bool
    ensures { IsTrue result ↔ All (λ rule. rule.prefix ≢ prefix.now) rules.now }
{
    for rule in rules {
        if rule.prefix == *prefix {
            return false;
        }
    }
    true
}

// Whether the router has no rule for the prefix.
fn is_unruled(routers: &[NetRouter], asn: Asn, prefix: &Prefix) -> bool
    ensures { IsTrue result ↔ All (λ r. r.asn ≡ asn → All (λ rule. rule.prefix ≢ prefix.now) r.rules) routers.now }
{
    for router in routers {
        if router.asn == asn && !is_new_rule(router.rules.as_slice(), prefix) {
            return false;
        }
    }
    true
}

// Whether the router can have one more rule.
fn has_room(routers: &[NetRouter], asn: Asn) -> bool
    ensures { IsTrue result ↔ All (λ r. r.asn ≡ asn → length r.rules < MOST_RULES) routers.now }
{
    for router in routers {
        if router.asn == asn && router.rules.len() >= MOST_RULES {
            return false;
        }
    }
    true
}

// Whether each number is that of a router.
fn are_routers(routers: &[NetRouter], asns: &[Asn]) -> bool
    requires { AllPairs (λ u v. u < v) (numbers routers.now) }
    ensures { IsTrue result ↔ All (IsRouter routers.now) asns.now }
{
    for asn in asns {
        if !is_router(routers, *asn) {
            return false;
        }
    }
    true
}

// Whether the paths name routers alone.
fn are_known(routers: &[NetRouter], paths: &[Path]) -> bool
    requires { AllPairs (λ u v. u < v) (numbers routers.now) }
    ensures { IsTrue result ↔ All (All (IsRouter routers.now)) paths.now }
{
    for path in paths {
        if !are_routers(routers, path.as_slice()) {
            return false;
        }
    }
    true
}

pub(crate) fn judge_rule(
    routers: &[NetRouter],
    asn: Asn,
    prefix: &Prefix,
    paths: &[Path],
) -> Result<(), NetError>
    requires { AllPairs (λ u v. u < v) (numbers routers.now) }
    ensures { IsJudged (RuleMeets routers.now asn prefix.now paths.now) result }
{
    if !are_simple(asn, paths) {
        return Err(NetError::NotSimple);
    }
    if !are_short(paths) {
        return Err(NetError::TooLong);
    }
    if !are_distinct(paths) || !is_unruled(routers, asn, prefix) {
        return Err(NetError::Repeated);
    }
    if !is_router(routers, asn) || !are_known(routers, paths) {
        return Err(NetError::UnknownRouter);
    }
    if paths.len() > MOST_PATHS || !has_room(routers, asn) {
        return Err(NetError::Limit);
    }
    Ok(())
}
