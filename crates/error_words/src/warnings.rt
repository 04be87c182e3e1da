//! Warnings of a network that is answered all the same: which of its rules are for nothing, and which of their paths go
//! over no link.

ghost use Rattle.std.specs.Prelude.{◌≡◌, ◌≢◌, [], ◌++◌, IfOk, OnOk};
ghost use Rattle.std.specs.List.{flat_map};
ghost use Rattle.ranked_policy.specs.Tests.{covers};
ghost use Rattle.net_text.specs.Lexing.{lines_of};
ghost use Rattle.net_text.specs.declared.code.Code.TheVariants.{Memory};
ghost use Rattle.error_words.specs.Warnings.{covers_some, are_linked, missing_link, rule_text, missing_text, reason_text, path_warnings, rule_warnings, router_warnings, warnings, warnings_text, all_more, network_lines, IsWarned};
ghost use Rattle.error_words.specs.Showing.{remark_text};

use crate::showing::put_remark;
use net_text::laws::what_is_spelt_is_not_refused;
use net_text::{Code, put_decimal, put_numbers, put_prefixes, read_network, split_at_section};
use prefix_lanes::Prefix;
use ranked_policy::{Asn, Link, NetRouter, Network, Origin, RankRule};
use std::alloc::{AllocError, Global};
use std::marker::Model;

/// How many rules and paths are warned of at most.
pub const MOST_WARNED: usize = 10;

/// Why a rule is warned of.
#[derive(Clone, Copy)]
pub(crate) enum Reason<'a> {
    /// It covers no origin's prefix.
    CoversNone,
    /// A path of it goes over a link that is not there.
    NoLink(&'a [Asn], Link),
}

// What is said of warnings so far.
#[derive(Drop)]
pub(crate) struct Warnings {
    // The remarks.
    text: Vec<u8>,
    // How many more are named.
    left: usize,
    // Whether one was not named.
    is_more: bool,
}

impl Model for Warnings {
    ghost use Rattle.error_words.specs.Warnings.{Warned};

    ghost Value = { Warned };

    ghost view = { λ w. record { text = w.text.items; left = w.left; is_more = w.is_more } };
}

// Whether a prefix covers another one.
fn covers(prefix: &Prefix, other: &Prefix) -> bool
    ensures { result ≡ covers prefix.now other.now }
{
    prefix.covers(other)
}

// Whether an origin's prefix is among those that a prefix covers.
fn covers_some(origins: &[Origin], prefix: &Prefix) -> bool
    ensures { result ≡ covers_some origins.now prefix.now }
{
    origins.iter().any(|origin| covers(prefix, &origin.prefix))
}

// Whether a link joins the two.
fn are_linked(network: &Network, one: Asn, other: Asn) -> bool
    ensures { result ≡ are_linked network.now.links one other }
{
    network.linked(one, other)
}

// The two neighbours on a path, the nearest to its origin, that no link joins.
fn missing_link(network: &Network, path: &[Asn]) -> Option<Link>
    ensures { result ≡ missing_link network.now.links path.now }
{
    let [first, rest @ ..] = path else {
        return None;
    };
    let (mut missing, mut one) = (None, *first);
    for next in rest {
        let other = *next;
        if !are_linked(network, one, other) {
            missing = Some(Link { one, other });
        }
        one = other;
    }
    missing
}

// Appends the rule of a router, as its line begins.
#[tactic(auto, unfolding(crate::specs::Warnings::rule_text))]
fn put_rule(out: &mut Vec<u8>, asn: Asn, prefix: &Prefix) -> Result<(), AllocError>
    ensures { OnOk result (out.new.items ≡ out.old.items ++ rule_text asn prefix.now) }
{
    out.extend_from_slice(b"rank ")?;
    put_decimal(out, asn)?;
    put_prefixes(out, &[*prefix])?;
    out.extend_from_slice(b": ")
}

// Appends that a path goes over a link that is not there.
#[tactic(auto, unfolding(crate::specs::Warnings::missing_text))]
fn put_missing(out: &mut Vec<u8>, path: &[Asn], missing: Link) -> Result<(), AllocError>
    ensures { OnOk result (out.new.items ≡ out.old.items ++ missing_text path.now missing) }
{
    put_numbers(out, path)?;
    out.extend_from_slice(b" can never come: there is no link ")?;
    put_decimal(out, missing.one)?;
    out.extend_from_slice(b" ")?;
    put_decimal(out, missing.other)
}

fn put_reason(out: &mut Vec<u8>, reason: Reason<'_>) -> Result<(), AllocError>
    ensures { OnOk result (out.new.items ≡ out.old.items ++ reason_text reason.entry) }
{
    match reason {
        Reason::CoversNone => out.extend_from_slice(
            b"no prefix that an origin has goes by this rule",
        ),
        Reason::NoLink(path, missing) => put_missing(out, path, missing),
    }
}

// Appends a warning as a remark.
#[tactic(auto, unfolding(crate::specs::Showing::remark_text))]
fn put_warning(
    out: &mut Vec<u8>,
    asn: Asn,
    prefix: &Prefix,
    reason: Reason<'_>,
) -> Result<(), AllocError>
    ensures { OnOk result
        (out.new.items ≡ out.old.items ++ remark_text (rule_text asn prefix.now ++ reason_text reason.entry)) }
{
    out.extend_from_slice(b"bgpnet: ")?;
    put_rule(out, asn, prefix)?;
    put_reason(out, reason)?;
    out.extend_from_slice(b"\n")
}

impl Warnings {
    ghost use Rattle.std.specs.Prelude.{◌≡◌, ◌++◌, OnOk, IfOk};
    ghost use Rattle.error_words.specs.Warnings.{rule_text, reason_text, more_said, one_more, none_warned};

    // None so far.
    fn new(alloc: Global) -> Warnings
        ensures { result ≡ none_warned }
    {
        Warnings {
            text: Vec::new(alloc),
            left: MOST_WARNED,
            is_more: false,
        }
    }

    // One more warning.
    fn warn(&mut self, asn: Asn, prefix: &Prefix, reason: Reason<'_>) -> Result<(), AllocError>
        ensures { OnOk result
            (self.new ≡ one_more (rule_text asn prefix.now ++ reason_text reason.entry) self.old) }
    {
        if self.left == 0 {
            self.is_more = true;
            return Ok(());
        }
        put_warning(&mut self.text, asn, prefix, reason)?;
        self.left -= 1;
        Ok(())
    }

    // All that is said.
    fn into_text(self) -> Result<Vec<u8>, AllocError>
        ensures { IfOk result (λ text. text.items ≡ self.text ++ more_said self.is_more) }
    {
        let mut text = self.text;
        if self.is_more {
            put_remark(
                &mut text,
                b"there are more such rules or paths: see tools/lint",
            )?;
        }
        Ok(text)
    }
}

// Warns of a path of a rule, if it goes over no link.
fn warn_of_path(
    out: &mut Warnings,
    network: &Network,
    asn: Asn,
    prefix: &Prefix,
    path: &[Asn],
) -> Result<(), AllocError>
    ensures { OnOk result (out.new ≡ all_more (path_warnings network.now asn prefix.now path.now) out.old) }
{
    match missing_link(network, path) {
        Some(missing) => out.warn(asn, prefix, Reason::NoLink(path, missing)),
        None => Ok(()),
    }
}

// Warns of the paths of a rule.
fn warn_of_paths(
    out: &mut Warnings,
    network: &Network,
    asn: Asn,
    rule: &RankRule,
) -> Result<(), AllocError>
    ensures { OnOk result
        (out.new ≡ all_more (flat_map (path_warnings network.now asn rule.now.prefix) rule.now.paths) out.old) }
{
    for path in rule.paths.as_slice() {
        warn_of_path(out, network, asn, &rule.prefix, path.as_slice())?;
    }
    Ok(())
}

// Warns of the paths of a rule, or of the rule if it covers no origin's prefix.
fn warn_of_rule(
    out: &mut Warnings,
    network: &Network,
    asn: Asn,
    rule: &RankRule,
) -> Result<(), AllocError>
    ensures { OnOk result (out.new ≡ all_more (rule_warnings network.now asn rule.now) out.old) }
{
    if covers_some(network.origins(), &rule.prefix) {
        warn_of_paths(out, network, asn, rule)
    } else {
        out.warn(asn, &rule.prefix, Reason::CoversNone)
    }
}

// Warns of the rules of a router.
fn warn_of_router(
    out: &mut Warnings,
    network: &Network,
    router: &NetRouter,
) -> Result<(), AllocError>
    ensures { OnOk result (out.new ≡ all_more (router_warnings network.now router.now) out.old) }
{
    for rule in router.rules.as_slice() {
        warn_of_rule(out, network, router.asn, rule)?;
    }
    Ok(())
}

// Warns of the rules of a network.
fn warn_of_network(out: &mut Warnings, network: &Network) -> Result<(), AllocError>
    ensures { OnOk result (out.new ≡ all_more (warnings network.now) out.old) }
{
    for router in network.routers() {
        warn_of_router(out, network, router)?;
    }
    Ok(())
}

// What is said of the rules of a network.
fn network_warnings(alloc: Global, network: &Network) -> Result<Vec<u8>, AllocError>
    ensures { IfOk result (λ text. text.items ≡ warnings_text (warnings network.now)) }
{
    let mut out = Warnings::new(alloc);
    warn_of_network(&mut out, network)?;
    out.into_text()
}

// Nothing is said of lines that spell no network. Want of memory is no such refusal: it is an error here.
fn no_warnings(alloc: Global, why: Code) -> Result<Vec<u8>, AllocError>
    ensures kind { IfOk result (λ text. why ≢ Memory) }
    ensures empty { IfOk result (λ text. text.items ≡ []) }
{
    if why == Code::Memory {
        return Err(AllocError);
    }
    Ok(Vec::new(alloc))
}

// What is said of the network that lines spell.
fn lines_warnings(alloc: Global, lines: &[u8]) -> Result<Vec<u8>, AllocError>
    ensures { IfOk result (λ text. IsWarned (lines_of lines.now) text.items) }
{
    what_is_spelt_is_not_refused();
    match read_network(alloc, lines) {
        Ok(network) => network_warnings(alloc, &network),
        Err(refused) => no_warnings(alloc, refused.code),
    }
}

// The lines of a network, without those of an assignment or a schedule behind it.
fn network_part(input: &[u8]) -> &[u8]
    ensures { lines_of result.now ≡ network_lines input.now }
{
    let split = split_at_section(input, b"assignment");
    split_at_section(split.front, b"schedule").front
}

/// What is said of the network in front of an input that `stable` or `safe` answered: a remark for each of the first
/// [`MOST_WARNED`] rules that cover no prefix with an origin, and paths that go over no link. It is refused only for
/// want of memory.
pub(crate) fn input_warnings(alloc: Global, input: &[u8]) -> Result<Vec<u8>, AllocError>
    ensures { IfOk result (λ text. IsWarned (network_lines input.now) text.items) }
{
    lines_warnings(alloc, network_part(input))
}
