//! The lines of a network text: each is judged, and then adds to the network.

ghost use Rattle.std.specs.Prelude.{◌≡◌};
ghost use Rattle.std.specs.List.{list_any};
ghost use Rattle.net_text.specs.Lexing.{words_of};
ghost use Rattle.prefix_lanes.specs.Bits.{is_prefix};
ghost use Rattle.net_text.specs.Lines.{setting_line, router_line, link_line, origin_line, rule_line, named_line, words_line, line_reading, is_taken, is_ruled, is_full, rule_fault};
ghost use Rattle.net_text.specs.Taking.{AreBrief};
ghost use Rattle.net_text.specs.Steps.{Steps};

use crate::code::Code;
use crate::lexing::{is_ascii, is_skipped, next_word, one_word, same, two_words};
use crate::network_so_far::NetworkSoFar;
use crate::paths::{PathsBrief, are_distinct, judge_rule_paths, take_paths};
use crate::settings::{Setting, judge_setting, naming, setting_of, was_named, width_named};
use crate::words::{asn_word, id_word, is_named, prefix_word, router_word};
use prefix_lanes::Prefix;
use ranked_policy::{
    Asn, MOST_PATHS, MOST_PREFIXES, MOST_ROUTERS, MOST_RULES, NetRouter, RankRule,
};
use std::alloc::Global;

// Reads a line of a setting.
fn read_setting(draft: &mut NetworkSoFar, setting: Setting, words: &[u8]) -> Result<(), Code>
    ensures { Steps result (setting_line setting draft.old (words_of words.now)) draft.new }
{
    let Some(word) = one_word(words) else {
        return Err(Code::BadForm);
    };
    judge_setting(setting, word)?;
    if was_named(setting, draft.named) {
        return Err(Code::Repeated);
    }
    draft.named = naming(setting, draft.named);
    Ok(())
}

// Whether a router has this number or this identifier.
fn is_taken(routers: &[NetRouter], asn: Asn, id: u32) -> bool
    ensures { result ≡ is_taken routers.now asn id }
{
    routers
        .iter()
        .any(|router| router.asn == asn || router.id == id)
}

fn read_router(draft: &mut NetworkSoFar, words: &[u8]) -> Result<(), Code>
    ensures { Steps result (router_line draft.old (words_of words.now)) draft.new }
{
    let Some((asn, id)) = two_words(words) else {
        return Err(Code::BadForm);
    };
    let asn = asn_word(width_named(draft.named), asn)?;
    let id = id_word(id)?;
    if is_taken(draft.net.routers(), asn, id) {
        return Err(Code::Repeated);
    }
    if draft.net.routers().len() >= MOST_ROUTERS {
        return Err(Code::OutOfLimit);
    }
    draft.add_router(asn, id)
}

fn read_link(draft: &mut NetworkSoFar, words: &[u8]) -> Result<(), Code>
    ensures { Steps result (link_line draft.old (words_of words.now)) draft.new }
{
    let Some((a, b)) = two_words(words) else {
        return Err(Code::BadForm);
    };
    let a = router_word(width_named(draft.named), draft.net.routers(), a)?;
    let b = router_word(width_named(draft.named), draft.net.routers(), b)?;
    draft.add_link(a, b)
}

fn read_origin(draft: &mut NetworkSoFar, words: &[u8]) -> Result<(), Code>
    ensures { Steps result (origin_line draft.old (words_of words.now)) draft.new }
{
    let Some((asn, prefix)) = two_words(words) else {
        return Err(Code::BadForm);
    };
    let asn = router_word(width_named(draft.named), draft.net.routers(), asn)?;
    let prefix = prefix_word(prefix)?;
    if is_named(draft.net.origins(), &prefix) {
        return Err(Code::Repeated);
    }
    if draft.net.origins().len() >= MOST_PREFIXES {
        return Err(Code::OutOfLimit);
    }
    draft.add_origin(asn, prefix)
}

// Whether one of the rules is for this prefix.
fn has_rule(rules: &[RankRule], prefix: &Prefix) -> bool
    ensures { result ≡ list_any (λ rule. is_prefix rule.prefix prefix.now) rules.now }
{
    rules.iter().any(|rule| rule.prefix.equals(prefix))
}

// Whether the router has a rule for this prefix.
fn is_ruled(routers: &[NetRouter], asn: Asn, prefix: &Prefix) -> bool
    ensures { result ≡ is_ruled routers.now asn prefix.now }
{
    routers.iter().any(|router| router.asn == asn && has_rule(router.rules.as_slice(), prefix))
}

// Whether the router has as many rules as it may.
fn is_full(routers: &[NetRouter], asn: Asn) -> bool
    ensures { result ≡ is_full routers.now asn }
{
    routers.iter().any(|router| router.asn == asn && router.rules.len() >= MOST_RULES)
}

// Judges that a rule does not repeat, and then its counts.
fn judge_rule<'a>(
    routers: &[NetRouter],
    asn: Asn,
    prefix: &Prefix,
    words: &'a [u8],
    brief: &PathsBrief,
    room: &mut Vec<&'a [u8]>,
) -> Result<(), Code>
    requires { AreBrief brief.now (words_of words.now) }
    ensures { result ≡ rule_fault routers.now asn prefix.now (words_of words.now) }
{
    if is_ruled(routers, asn, prefix) || !are_distinct(words, brief, room) {
        return Err(Code::Repeated);
    }
    if brief.count > MOST_PATHS || is_full(routers, asn) || !brief.are_short {
        return Err(Code::OutOfLimit);
    }
    Ok(())
}

fn read_rule<'a>(
    alloc: Global,
    draft: &mut NetworkSoFar,
    room: &mut Vec<&'a [u8]>,
    words: &'a [u8],
) -> Result<(), Code>
    ensures { Steps result (rule_line draft.old (words_of words.now)) draft.new }
{
    let Some((asn, words)) = next_word(words) else {
        return Err(Code::BadForm);
    };
    let Some((prefix, words)) = next_word(words) else {
        return Err(Code::BadForm);
    };
    let asn = router_word(width_named(draft.named), draft.net.routers(), asn)?;
    let prefix = prefix_word(prefix)?;
    let brief = judge_rule_paths(width_named(draft.named), &draft.net, asn, words)?;
    judge_rule(draft.net.routers(), asn, &prefix, words, &brief, room)?;
    match take_paths(alloc, words, brief.count) {
        Ok(paths) => draft.add_rule(asn, prefix, paths),
        Err(_) => Err(Code::Memory),
    }
}

fn read_words<'a>(
    alloc: Global,
    draft: &mut NetworkSoFar,
    room: &mut Vec<&'a [u8]>,
    line: &'a [u8],
) -> Result<(), Code>
    ensures { Steps result (words_line draft.old (words_of line.now)) draft.new }
{
    let Some((name, words)) = next_word(line) else {
        return Ok(());
    };
    if same(name, b"router") {
        read_router(draft, words)
    } else if same(name, b"link") {
        read_link(draft, words)
    } else if same(name, b"origin") {
        read_origin(draft, words)
    } else if same(name, b"rank") {
        read_rule(alloc, draft, room, words)
    } else {
        match setting_of(name) {
            Some(setting) => read_setting(draft, setting, words),
            None => Err(Code::BadForm),
        }
    }
}

// Adds what a line says to the network. After an `Err` the draft is of no more use. `room` is for the paths of a rule
// (`make_room`).
pub(crate) fn read_line<'a>(
    alloc: Global,
    draft: &mut NetworkSoFar,
    room: &mut Vec<&'a [u8]>,
    line: &'a [u8],
) -> Result<(), Code>
    ensures { Steps result (line_reading draft.old line.now) draft.new }
{
    if is_skipped(line) {
        return Ok(());
    }
    if !is_ascii(line) {
        return Err(Code::BadForm);
    }
    read_words(alloc, draft, room, line)
}
