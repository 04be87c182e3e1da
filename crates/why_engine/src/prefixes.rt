//! The prefixes of a network, as a router has them.

ghost use Rattle.std.specs.Prelude.{◌≡◌, ◌++◌, OnOk, IfOk};
ghost use Rattle.ranked_policy.specs.Plans.{IsNamed};
ghost use Rattle.rib_tables.specs.Words.{path_in};
ghost use Rattle.router_model.specs.Sides.{is_established, is_up};
ghost use Rattle.router_core.specs.Views.{plain_of, sides_of, heard_now, told_now};
ghost use Rattle.why_engine.specs.Explaining.{ArePeers, IsPeer, is_told, told_of, told_text, prefix_lines, prefixes_lines};

use crate::lines::{put_kept_line, put_told_line};
use crate::words::{is_same, put_said};
use prefix_lanes::Prefix;
use ranked_policy::{Asn, Origin, PolicyTable};
use router_core::Router;
use session_fsm::State;
use std::alloc::{AllocError, Global};

// The path that a peer said last.
fn said_by<'r>(router: &'r Router<'_>, peer: Asn, prefix: &Prefix) -> &'r [Asn]
    requires peer { IsPeer router.now peer }
    requires named { IsNamed router.now.net.origins prefix.now }
    ensures { result.now ≡ path_in (heard_now (sides_of router.now peer) prefix.now) }
{
    match router.word_heard(peer, prefix) {
        Some(word) => word.path(),
        None => &[],
    }
}

// The path that a peer was told last.
fn told_to<'r>(router: &'r Router<'_>, peer: Asn, prefix: &Prefix) -> &'r [Asn]
    requires peer { IsPeer router.now peer }
    requires named { IsNamed router.now.net.origins prefix.now }
    ensures { result.now ≡ path_in (told_now (sides_of router.now peer) prefix.now) }
{
    match router.word_sent(peer, prefix) {
        Some(word) => word.path(),
        None => &[],
    }
}

// Whether a state is Established.
fn is_established(state: State) -> bool
    ensures { result ≡ is_established state }
{
    match state {
        State::Idle | State::Connect | State::Active | State::OpenSent | State::OpenConfirm =>
            false,
        State::Established => true,
    }
}

// Whether the session with a peer is Established.
fn is_up(router: &Router<'_>, peer: Asn) -> bool
    requires { IsPeer router.now peer }
    ensures { result ≡ is_up (sides_of router.now peer) }
{
    match router.state(peer) {
        Some(state) => is_established(state),
        None => false,
    }
}

// Whether a peer was told the path that is kept.
fn is_told(router: &Router<'_>, peer: Asn, prefix: &Prefix) -> bool
    requires peer { IsPeer router.now peer }
    requires named { IsNamed router.now.net.origins prefix.now }
    ensures { result ≡ is_told ((plain_of router.now).router.kept prefix.now) (sides_of router.now peer) prefix.now }
{
    is_up(router, peer) && is_same(router.kept(prefix), told_to(router, peer, prefix))
}

// The peers that were told the path that is kept.
fn told_peers(
    alloc: Global,
    router: &Router<'_>,
    peers: &[Asn],
    prefix: &Prefix,
) -> Result<Vec<Asn>, AllocError>
    requires peers { ArePeers router.now peers.now }
    requires named { IsNamed router.now.net.origins prefix.now }
    ensures { IfOk result
        (λ told. told.items
        ≡ told_of ((plain_of router.now).router.kept prefix.now) (sides_of router.now) prefix.now peers.now) }
{
    let mut told = Vec::new(alloc);
    for peer in peers {
        if is_told(router, *peer, prefix) {
            told.push(*peer)?;
        }
    }
    Ok(told)
}

// Appends the peers that were told the kept path, if there are any.
fn put_told(peers: &[Asn], out: &mut Vec<u8>) -> Result<(), AllocError>
    ensures { OnOk result (out.new.items ≡ out.old.items ++ told_text peers.now) }
{
    if peers.is_empty() {
        return Ok(());
    }
    put_told_line(peers, out)
}

// Appends a prefix: what is kept for it, what was said of it, and which peers were told.
fn put_prefix(
    alloc: Global,
    router: &Router<'_>,
    table: &PolicyTable<'_>,
    peers: &[Asn],
    prefix: &Prefix,
    out: &mut Vec<u8>,
) -> Result<(), AllocError>
    requires peers { ArePeers router.now peers.now }
    requires named { IsNamed router.now.net.origins prefix.now }
    ensures { OnOk result
        (out.new.items ≡ out.old.items ++ prefix_lines table.now (plain_of router.now).router peers.now prefix.now) }
{
    let kept = router.kept(prefix);
    put_kept_line(prefix, kept, router.originates(prefix), out)?;
    for peer in peers {
        let said = said_by(router, *peer, prefix);
        put_said(table, prefix, kept, *peer, said, out)?;
    }
    let told = told_peers(alloc, router, peers, prefix)?;
    put_told(told.as_slice(), out)
}

/// Appends the prefixes of these origins, which are those of the router's network.
pub(crate) fn put_prefixes(
    alloc: Global,
    router: &Router<'_>,
    table: &PolicyTable<'_>,
    peers: &[Asn],
    origins: &[Origin],
    out: &mut Vec<u8>,
) -> Result<(), AllocError>
    requires peers { ArePeers router.now peers.now }
    requires origins { origins.now ≡ router.now.net.origins }
    ensures { OnOk result
        (out.new.items ≡ out.old.items ++ prefixes_lines table.now (plain_of router.now).router peers.now origins.now) }
{
    for origin in origins {
        put_prefix(alloc, router, table, peers, &origin.prefix, out)?;
    }
    Ok(())
}
