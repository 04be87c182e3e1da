//! The parts of an answer: the routers that have the same path in all stable assignments, and the disputes.

ghost use Rattle.std.specs.Prelude.{◌≡◌, ◌++◌, ◌+◌, ◌<◌, ◌^◌, [], codes, length, slice_index_or, filter, IfOk, OnOk};
ghost use Rattle.std.specs.List.{All};
ghost use Rattle.net_text.specs.Printing.{routed_line};
ghost use Rattle.stable_search.specs.Every.{choices_of, IsPart};
ghost use Rattle.stable_engine.specs.Listing.{route_text, only_text, routes_of, routes_text, is_dispute, choices_text, dispute_text, disputes_text, follow_text, follows_text, every_text};

use crate::lines::{put_choice_line, put_dispute_line, put_follow_line, put_prefix_line};
use net_text::path_line;
use prefix_lanes::Prefix;
use ranked_policy::{Asn, NetRouter};
use stable_search::{Component, Every};
use std::alloc::{AllocError, Global};

// Appends the path that the first choice of a part has for the router at a place.
fn put_route_at(
    prefix: &Prefix,
    router: Asn,
    part: &Component,
    place: usize,
    out: &mut Vec<u8>,
) -> Result<(), AllocError>
    requires part { IsPart part.now }
    requires some { 0 < length (choices_of part.now) }
    requires place { place < length part.now.routers }
    ensures { OnOk result (out.new.items ≡ out.old.items ++ routed_line (codes "route ") router prefix.now
        (slice_index_or (slice_index_or (choices_of part.now) 0 []) place [])) }
{
    let Some(path) = part.path(0, place) else {
        return Ok(());
    };
    path_line(b"route ", router, prefix, path.as_slice(), out)
}

// Appends the path that the first choice of a part has for a router, if it is of the part.
fn put_route(
    prefix: &Prefix,
    router: Asn,
    part: &Component,
    out: &mut Vec<u8>,
) -> Result<(), AllocError>
    requires part { IsPart part.now }
    requires some { 0 < length (choices_of part.now) }
    ensures { OnOk result (out.new.items ≡ out.old.items
        ++ route_text prefix.now router part.now.routers (slice_index_or (choices_of part.now) 0 [])) }
{
    for (k, other) in part.routers.as_slice().iter().enumerate() {
        if *other == router {
            return put_route_at(prefix, router, part, k, out);
        }
    }
    Ok(())
}

// Appends the path of a router, if it is in a part that has one choice.
fn put_only(
    prefix: &Prefix,
    router: Asn,
    part: &Component,
    out: &mut Vec<u8>,
) -> Result<(), AllocError>
    requires { IsPart part.now }
    ensures { OnOk result
        (out.new.items ≡ out.old.items ++ only_text prefix.now router part.now.routers (choices_of part.now)) }
{
    if part.choice_count() != 1 {
        return Ok(());
    }
    put_route(prefix, router, part, out)
}

// Appends the path of a router, if it has the same path in all stable assignments.
fn put_routes_of(
    prefix: &Prefix,
    router: Asn,
    parts: &[Component],
    out: &mut Vec<u8>,
) -> Result<(), AllocError>
    requires { All IsPart parts.now }
    ensures { OnOk result (out.new.items ≡ out.old.items ++ routes_of prefix.now router parts.now) }
{
    for part in parts {
        put_only(prefix, router, part, out)?;
    }
    Ok(())
}

// Appends the paths of the routers that have the same path in all stable assignments.
fn put_routes(
    prefix: &Prefix,
    routers: &[NetRouter],
    parts: &[Component],
    out: &mut Vec<u8>,
) -> Result<(), AllocError>
    requires { All IsPart parts.now }
    ensures { OnOk result (out.new.items ≡ out.old.items ++ routes_text prefix.now routers.now parts.now) }
{
    for router in routers {
        put_routes_of(prefix, router.asn, parts, out)?;
    }
    Ok(())
}

// Appends the choices of a dispute.
fn put_choices(part: &Component, out: &mut Vec<u8>) -> Result<(), AllocError>
    requires { IsPart part.now }
    ensures { OnOk result (out.new.items ≡ out.old.items ++ choices_text (choices_of part.now)) }
{
    for choice in 0..part.choice_count() {
        put_choice_line(part, choice, out)?;
    }
    Ok(())
}

// Appends a dispute and its choices.
fn put_dispute(
    number: usize,
    prefix: &Prefix,
    part: &Component,
    out: &mut Vec<u8>,
) -> Result<(), AllocError>
    requires { IsPart part.now }
    ensures { OnOk result (out.new.items ≡ out.old.items ++ dispute_text number prefix.now part.now) }
{
    let count = part.choice_count();
    put_dispute_line(number, prefix, count, part.routers.as_slice(), out)?;
    put_choices(part, out)
}

// Appends the disputes among these parts.
fn put_disputes(prefix: &Prefix, parts: &[Component], out: &mut Vec<u8>) -> Result<(), AllocError>
    requires { All IsPart parts.now }
    ensures { OnOk result (out.new.items ≡ out.old.items ++ disputes_text 1 prefix.now (filter is_dispute parts.now)) }
{
    let mut number = 1usize;
    for part in parts {
        if !part.follows && part.choice_count() != 1 {
            put_dispute(number, prefix, part, out)?;
            number += 1;
        }
    }
    Ok(())
}

// Appends the paths of a router that follows.
fn put_follow(prefix: &Prefix, part: &Component, out: &mut Vec<u8>) -> Result<(), AllocError>
    requires { IsPart part.now }
    ensures { OnOk result (out.new.items ≡ out.old.items ++ follow_text prefix.now part.now) }
{
    if !part.follows {
        return Ok(());
    }
    put_follow_line(prefix, part, out)
}

// Appends the routers that follow among these parts.
fn put_follows(prefix: &Prefix, parts: &[Component], out: &mut Vec<u8>) -> Result<(), AllocError>
    requires { All IsPart parts.now }
    ensures { OnOk result (out.new.items ≡ out.old.items ++ follows_text prefix.now parts.now) }
{
    for part in parts {
        put_follow(prefix, part, out)?;
    }
    Ok(())
}

/// Appends all stable assignments for a prefix: how many there are, the paths of the routers that have the same in
/// all, the disputes, and the routers that follow.
pub(crate) fn put_every(
    prefix: &Prefix,
    routers: &[NetRouter],
    every: &Every,
    out: &mut Vec<u8>,
) -> Result<(), AllocError>
    requires { All IsPart every.now.parts }
    ensures { OnOk result (out.new.items ≡ out.old.items ++ every_text prefix.now routers.now every.now.parts) }
{
    let parts = every.parts.as_slice();
    put_prefix_line(prefix, every, out)?;
    put_routes(prefix, routers, parts, out)?;
    put_disputes(prefix, parts, out)?;
    put_follows(prefix, parts, out)
}
