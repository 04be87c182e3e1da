//! The routes that routers recorded in a snapshot.

ghost use Rattle.std.specs.Prelude.{◌≡◌, ◌++◌, false, OnOk, OnErr, length, take, drop, map};
ghost use Rattle.std.specs.List.{AllPairs};
ghost use Rattle.prefix_lanes.specs.Bits.{PrefixView, is_prefix};
ghost use Rattle.ranked_policy.specs.Plans.{IsBefore};
ghost use Rattle.snap_marker.specs.Parts.{kept_in};
ghost use Rattle.snap_collector.specs.Collecting.{member_of};
ghost use Rattle.snap_collector.specs.Collector.{made_for, kept_of};
ghost use Rattle.schedule_text.specs.Routes.{router_text, recorded, part_text, parts_text};

use crate::report::route_line;
use prefix_lanes::Prefix;
use ranked_policy::{Asn, Network, Origin};
use snap_collector::Collector;
use snap_marker::{KeptPath, Part};
use std::alloc::AllocError;

// The path kept for a prefix; empty if none is.
fn path_in<'k>(kept: &'k [KeptPath], prefix: &Prefix) -> &'k [Asn]
    ensures { result.now ≡ kept_in kept.now prefix.now }
{
    for one in kept {
        if one.prefix.equals(prefix) {
            return one.path.as_slice();
        }
    }
    &[]
}

// The path kept for a prefix. It is looked for first behind those that were passed, where it mostly stands, since a
// part keeps its paths in the order of the origins. None of those passed is for the prefix.
fn next_path<'k>(kept: &'k [KeptPath], passed: &mut usize, prefix: &Prefix) -> &'k [Asn]
    requires { kept_in (drop passed.old kept.now) prefix.now ≡ kept_in kept.now prefix.now }
    ensures path { result.now ≡ kept_in kept.now prefix.now }
    // The paths of other prefixes are not passed.
    ensures others { (q : PrefixView) → is_prefix prefix.now q ≡ false
        → kept_in (drop passed.new kept.now) q ≡ kept_in (drop passed.old kept.now) q }
{
    if *passed < kept.len() {
        let next = &kept[*passed];
        if next.prefix.equals(prefix) {
            *passed += 1;
            return next.path.as_slice();
        }
    }
    path_in(kept, prefix)
}

// Appends the path that a part has for the prefix of each origin.
fn put_part(
    number: Asn,
    part: &Part,
    origins: &[Origin],
    out: &mut Vec<u8>,
) -> Result<(), AllocError>
    requires { AllPairs (λ origin later. IsBefore origin.prefix later.prefix) origins.now }
    ensures kept { take (length out.old.items) out.new.items ≡ out.old.items }
    ensures ok { OnOk result
        (out.new.items ≡ out.old.items ++ router_text (kept_in part.now.kept.items) number origins.now) }
{
    let kept = part.kept.as_slice();
    let mut passed = 0;
    for origin in origins {
        let path = next_path(kept, &mut passed, &origin.prefix);
        route_line(number, &origin.prefix, path, out)?;
    }
    Ok(())
}

// Appends the routes of the part that a router has in a snapshot, if it has one.
fn put_recorded(
    collector: &Collector,
    number: u32,
    router: Asn,
    origins: &[Origin],
    out: &mut Vec<u8>,
) -> Result<(), AllocError>
    requires { AllPairs (λ origin later. IsBefore origin.prefix later.prefix) origins.now }
    ensures kept { take (length out.old.items) out.new.items ≡ out.old.items }
    ensures ok { OnOk result
        (out.new.items
        ≡ out.old.items
        ++ part_text origins.now router
        (recorded (kept_of (map member_of collector.now.members) (made_for collector.now number)) router)) }
{
    match collector.part(number, router) {
        Some(part) => put_part(router, part, origins, out),
        None => Ok(()),
    }
}

// Appends the routes that routers recorded in the snapshot of this number. If memory is refused, some of the lines
// stand behind what the buffer had.
fn put_each_part(
    network: &Network,
    collector: &Collector,
    number: u32,
    out: &mut Vec<u8>,
) -> Result<(), AllocError>
    ensures kept { take (length out.old.items) out.new.items ≡ out.old.items }
    ensures ok { OnOk result
        (out.new.items
        ≡ out.old.items
        ++ parts_text network.now
        (kept_of (map member_of collector.now.members) (made_for collector.now number))) }
{
    for member in network.routers() {
        put_recorded(collector, number, member.asn, network.origins(), out)?;
    }
    Ok(())
}

/// Appends the routes that routers recorded in the snapshot of this number. There is a line for each router that has a
/// part of the snapshot, routers rising, and each prefix that the network originates. It has the path that the part keeps for the
/// prefix, or `none`. A router without a part has no line.
///
/// It is refused only for want of memory, and then leaves what the buffer had.
pub fn put_parts(
    network: &Network,
    collector: &Collector,
    number: u32,
    out: &mut Vec<u8>,
) -> Result<(), AllocError>
    ensures ok { OnOk result
        (out.new.items
        ≡ out.old.items
        ++ parts_text network.now
        (kept_of (map member_of collector.now.members) (made_for collector.now number))) }
    ensures err { OnErr result (out.new.items ≡ out.old.items) }
{
    let start = out.len();
    let result = put_each_part(network, collector, number, out);
    if result.is_err() {
        out.truncate(start);
    }
    result
}
