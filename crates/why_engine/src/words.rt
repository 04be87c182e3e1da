//! How a router judges the path that a peer said for a prefix.

ghost use Rattle.std.specs.Prelude.{◌≡◌, ◌∷◌, ◌++◌, OnOk};
ghost use Rattle.router_model.specs.State.{same_path};
ghost use Rattle.why_engine.specs.Explaining.{place_in, place_text, kept_text, stands_in, may_use, verdict_text, said_text};
ghost use Rattle.ranked_policy.specs.Tests.{rule_for};

use net_text::{put_decimal, put_len, put_numbers};
use prefix_lanes::Prefix;
use ranked_policy::laws::policies_are_tests;
use ranked_policy::{Asn, Path, PolicyTable};
use std::alloc::AllocError;

/// Whether two paths are the same.
pub(crate) fn is_same(one: &[Asn], other: &[Asn]) -> bool
    ensures { result ≡ same_path one.now other.now }
{
    one == other
}

// Whether a path is the router, and then what was said.
fn is_along(path: &[Asn], router: Asn, said: &[Asn]) -> bool
    ensures { result ≡ same_path path.now (router ∷ said.now) }
{
    match path {
        [first, others @ ..] => *first == router && is_same(others, said),
        [] => false,
    }
}

// The place among these paths of the router followed by what was said, counted from 1; 0 if it is not among them.
fn place_among(paths: &[Path], router: Asn, said: &[Asn]) -> usize
    ensures { result ≡ place_in 1 paths.now (router ∷ said.now) }
{
    for (place, path) in paths.iter().enumerate() {
        if is_along(path.as_slice(), router, said) {
            return place + 1;
        }
    }
    0
}

fn put_place(
    table: &PolicyTable<'_>,
    prefix: &Prefix,
    said: &[Asn],
    out: &mut Vec<u8>,
) -> Result<(), AllocError>
    ensures { OnOk result
        (out.new.items
        ≡ out.old.items ++ place_text (rule_for table.now.rules prefix.now) (table.now.router ∷ said.now)) }
{
    match table.rule(prefix) {
        Some(rule) => {
            out.extend_from_slice(b", place ")?;
            put_len(
                out,
                place_among(rule.paths.as_slice(), table.router(), said),
            )
        }
        None => Ok(()),
    }
}

fn kept_text(kept: &[Asn], router: Asn, said: &[Asn]) -> &'static [u8]
    ensures { result.now ≡ kept_text kept.now (router ∷ said.now) }
{
    if is_along(kept, router, said) {
        b", kept"
    } else {
        b""
    }
}

// Whether the router stands in what was said.
#[tactic(auto, unfolding(crate::specs::Explaining::stands_in))]
fn stands_in(table: &PolicyTable<'_>, said: &[Asn]) -> bool
    ensures { result ≡ stands_in table.now said.now }
{
    let router = table.router();
    said.iter().any(|number| *number == router)
}

// Whether the router may use the path along what was said.
fn is_permitted(table: &PolicyTable<'_>, prefix: &Prefix, said: &[Asn]) -> bool
    ensures { result ≡ may_use table.now prefix.now said.now }
{
    policies_are_tests();
    table
        .for_prefix(prefix)
        .permits_onward(table.router(), said)
}

#[tactic(auto, unfolding(crate::specs::Explaining::choice_text))]
fn put_verdict(
    table: &PolicyTable<'_>,
    prefix: &Prefix,
    kept: &[Asn],
    said: &[Asn],
    out: &mut Vec<u8>,
) -> Result<(), AllocError>
    ensures { OnOk result
        (out.new.items ≡ out.old.items ++ verdict_text table.now prefix.now kept.now said.now) }
{
    if stands_in(table, said) {
        return out.extend_from_slice(b"loop");
    }
    if !is_permitted(table, prefix, said) {
        return out.extend_from_slice(b"not permitted");
    }
    put_decimal(out, table.router())?;
    out.extend_from_slice(b"-")?;
    put_numbers(out, said)?;
    put_place(table, prefix, said, out)?;
    out.extend_from_slice(kept_text(kept, table.router(), said))
}

/// Appends the path that a peer said for a prefix, and how the router judges it; nothing if the peer said none.
#[tactic(auto, unfolding(crate::specs::Explaining::word_line))]
pub(crate) fn put_said(
    table: &PolicyTable<'_>,
    prefix: &Prefix,
    kept: &[Asn],
    peer: Asn,
    said: &[Asn],
    out: &mut Vec<u8>,
) -> Result<(), AllocError>
    ensures { OnOk result (out.new.items ≡ out.old.items ++ said_text table.now prefix.now kept.now peer said.now) }
{
    if said.is_empty() {
        return Ok(());
    }
    out.extend_from_slice(b"  from ")?;
    put_decimal(out, peer)?;
    out.extend_from_slice(b" ")?;
    put_numbers(out, said)?;
    out.extend_from_slice(b": ")?;
    put_verdict(table, prefix, kept, said, out)?;
    out.extend_from_slice(b"\n")
}
