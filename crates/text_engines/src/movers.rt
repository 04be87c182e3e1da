//! The text that `bgpnet check --all` prints: for each prefix all routers that would move.

ghost use Rattle.std.specs.Prelude.{◌≡◌, ◌++◌, ℕ, List, IfOk, OnOk, length};
ghost use Rattle.ranked_policy.specs.Plans.{IsNamed};
ghost use Rattle.stable_paths.specs.Judging.{AreMovers};
ghost use Rattle.stable_paths.specs.Stable.{path_of};
ghost use Rattle.text_engines.specs.Decoding.{output};
ghost use Rattle.text_engines.specs.Checking.{Assign, at_prefix, rests_line, moves_line, movers_lines, movers_text, MoversText, MoversGive};

use crate::assignments::assigned;
use crate::status::DONE;
use net_text::{Entry, put_len, put_prefixes, unstable_line};
use prefix_lanes::Prefix;
use ranked_policy::{Network, Origin};
use stable_paths::{Assignment, Instance, Mover, movers};
use std::alloc::{AllocError, Global};

// Appends a prefix for which no router would move.
#[tactic(auto, unfolding(crate::specs::Checking::rests_line))]
fn put_rests(prefix: &Prefix, out: &mut Vec<u8>) -> Result<(), AllocError>
    ensures { OnOk result (out.new.items ≡ out.old.items ++ rests_line prefix.now) }
{
    out.extend_from_slice(b"prefix")?;
    put_prefixes(out, &[*prefix])?;
    out.extend_from_slice(b" stable\n")
}

// Appends a prefix for which so many routers would move.
#[tactic(auto, unfolding(crate::specs::Checking::moves_line))]
fn put_moves(prefix: &Prefix, count: usize, out: &mut Vec<u8>) -> Result<(), AllocError>
    ensures { OnOk result (out.new.items ≡ out.old.items ++ moves_line prefix.now count) }
{
    out.extend_from_slice(b"prefix")?;
    put_prefixes(out, &[*prefix])?;
    out.extend_from_slice(b" unstable ")?;
    put_len(out, count)?;
    out.extend_from_slice(b"\n")
}

// Appends the line of each router.
fn put_movers(movers: &[Mover], out: &mut Vec<u8>) -> Result<(), AllocError>
    ensures { OnOk result (out.new.items ≡ out.old.items ++ movers_lines movers.now) }
{
    for mover in movers {
        unstable_line(
            mover.router,
            mover.has.as_slice(),
            mover.best.as_slice(),
            out,
        )?;
    }
    Ok(())
}

// Appends a prefix, and the routers that would move.
fn put_prefix(prefix: &Prefix, movers: &[Mover], out: &mut Vec<u8>) -> Result<(), AllocError>
    ensures { OnOk result (out.new.items ≡ out.old.items ++ movers_text prefix.now movers.now) }
{
    if movers.is_empty() {
        return put_rests(prefix, out);
    }
    put_moves(prefix, movers.len(), out)?;
    put_movers(movers, out)
}

// The routers that would move for a prefix.
fn movers_at(
    alloc: Global,
    network: &Network,
    prefix: &Prefix,
    assignment: &Assignment,
) -> Result<Vec<Mover>, AllocError>
    requires { IsNamed network.now.origins prefix.now }
    ensures { IfOk result
        (λ movers. AreMovers (at_prefix network.now prefix.now) (path_of assignment.now) network.now.routers movers.items) }
{
    let instance = Instance::new(network, prefix);
    match movers(alloc, &instance, assignment) {
        Ok(found) => Ok(found),
        Err(_) => Err(AllocError),
    }
}

// Appends the prefix of each origin, and the routers that would move.
fn put_all(
    alloc: Global,
    network: &Network,
    origins: &[Origin],
    entries: &[Entry],
    all: &[Assignment],
    out: &mut Vec<u8>,
) -> Result<(), AllocError>
    requires origins { origins.now ≡ network.now.origins }
    requires all { Assign origins.now entries.now all.now }
    ensures { OnOk result
        ((text : List ℕ) × MoversText network.now entries.now origins.now text × (out.new.items ≡ out.old.items ++ text)) }
{
    for (place, origin) in origins.iter().enumerate() {
        let found = movers_at(alloc, network, &origin.prefix, &all[place])?;
        put_prefix(&origin.prefix, found.as_slice(), out)?;
    }
    Ok(())
}

/// The text printed of all routers that would move, for entries that are all permitted, and the exit status.
pub(crate) fn movers_output(
    alloc: Global,
    network: &Network,
    entries: &[Entry],
) -> Result<(Vec<u8>, u8), AllocError>
    ensures { IfOk result (λ printed. MoversGive network.now entries.now (output printed.0.items printed.1)) }
{
    let origins = network.origins();
    let all = assigned(alloc, origins, entries)?;
    let mut out = Vec::new(alloc);
    put_all(alloc, network, origins, entries, all.as_slice(), &mut out)?;
    Ok((out, DONE))
}
