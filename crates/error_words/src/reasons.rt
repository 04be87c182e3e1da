//! Why a line is refused, by its words and by the lines before it.

ghost use Rattle.std.specs.Prelude.{◌≡◌, ◌++◌, OnOk};
ghost use Rattle.std.specs.List.{list_any};
ghost use Rattle.std.specs.Option.{option_copied};
ghost use Rattle.net_text.specs.Lexing.{words_of, lines_of, same};
ghost use Rattle.net_text.specs.Words.{is_number};
ghost use Rattle.error_words.specs.Places.{before_clash};
ghost use Rattle.error_words.specs.Reasons.{is_known, name_reason, words_reason, form_reason, has_prefix, shown_with, path_reason, second_reason, first_reason, unread_reason, same_operand, again_what, any_twice, within_reason, has_text, earlier_text, clash_reason, again_reason, faulty_of, router_of, other_text, rule_reason, known_reason, reason};

use crate::meanings::meaning_at;
use crate::places::{NETWORK, ORDERS, PATHS, SECTIONS, before_clash, own_form, place_of};
use crate::refusals::line_at;
use crate::showing::put_shown;
use crate::spelling::{faulty_in, first_number, no_path_in};
use crate::tables::found_in;
use net_text::lexing::{is_ascii, next_word, same};
use net_text::put_len;
use net_text::words::number_of;
use std::alloc::AllocError;

/// How many octets a line has at most that is looked at word by word.
pub const MOST_COMPARED: usize = 4096;

// What an earlier line has, by its first word.
#[rattlefmt::skip]
static AGAIN: [(&[u8], &[u8]); 4] = [
    (b"link", b"this link, one way round or the other"),
    (b"origin", b"the origin of this prefix, and a prefix has one"),
    (b"rank", b"the paths of this router for this prefix"),
    (b"path", b"the path of this router for this prefix"),
];

// Whether a word is the first of a line of some place.
fn is_known(name: &[u8]) -> bool
    ensures { result ≡ is_known name.now }
{
    found_in(&NETWORK, name).is_some()
        || found_in(&ORDERS, name).is_some()
        || found_in(&PATHS, name).is_some()
        || found_in(&SECTIONS, name).is_some()
}

fn name_reason(input: &[u8], at: u64, name: &[u8]) -> &'static [u8]
    ensures { result.now ≡ name_reason input.now at name.now }
{
    if own_form(place_of(input, at), name).is_some() {
        b"a wrong number of words"
    } else if is_known(name) {
        b"a first word that doesn't stand here"
    } else {
        b"an unknown first word"
    }
}

// Why the form of a line is wrong.
fn form_reason(input: &[u8], at: u64, line: &[u8]) -> &'static [u8]
    ensures { result.now ≡ form_reason input.now at line.now }
{
    if !is_ascii(line) {
        return b"an octet past ASCII";
    }
    match next_word(line) {
        Some((name, _)) => name_reason(input, at, name),
        None => meaning_at(at, b"N1"),
    }
}

// Whether a prefix stands behind the router.
fn has_prefix(name: &[u8]) -> bool
    ensures { result ≡ has_prefix name.now }
{
    same(name, b"rank")
        || same(name, b"path")
        || same(name, b"origin")
        || same(name, b"originate")
        || same(name, b"withdraw")
}

// Appends a word as it is shown, and what is said of it.
#[tactic(auto, unfolding(crate::specs::Reasons::shown_with))]
fn put_with(out: &mut Vec<u8>, word: &[u8], what: &[u8]) -> Result<(), AllocError>
    ensures { OnOk result (out.new.items ≡ out.old.items ++ shown_with word.now what.now) }
{
    put_shown(out, word)?;
    out.extend_from_slice(what)
}

fn put_path_reason(out: &mut Vec<u8>, at: u64, found: Option<&[u8]>) -> Result<(), AllocError>
    ensures { OnOk result (out.new.items ≡ out.old.items ++ path_reason at (option_copied found.entry)) }
{
    match found {
        Some(word) => put_with(out, word, b" is no path"),
        None => out.extend_from_slice(meaning_at(at, b"N2")),
    }
}

fn put_second(out: &mut Vec<u8>, at: u64, name: &[u8], words: &[u8]) -> Result<(), AllocError>
    ensures { OnOk result (out.new.items ≡ out.old.items ++ second_reason at name.now (words_of words.now)) }
{
    let Some((word, rest)) = next_word(words) else {
        return out.extend_from_slice(meaning_at(at, b"N2"));
    };
    if same(name, b"router") {
        put_with(out, word, b" is no address of a router")
    } else if has_prefix(name) {
        put_path_reason(out, at, no_path_in(rest))
    } else {
        put_with(out, word, b" is no number")
    }
}

// Whether a word is a number.
fn is_number(word: &[u8]) -> bool
    ensures { result ≡ is_number word.now }
{
    number_of(word).is_some()
}

fn put_first(out: &mut Vec<u8>, at: u64, name: &[u8], words: &[u8]) -> Result<(), AllocError>
    ensures { OnOk result (out.new.items ≡ out.old.items ++ first_reason at name.now (words_of words.now)) }
{
    let Some((word, rest)) = next_word(words) else {
        return out.extend_from_slice(meaning_at(at, b"N2"));
    };
    if is_number(word) {
        put_second(out, at, name, rest)
    } else {
        put_with(out, word, b" is no number")
    }
}

// Appends which word can't be read.
fn put_unread(out: &mut Vec<u8>, at: u64, line: &[u8]) -> Result<(), AllocError>
    ensures { OnOk result (out.new.items ≡ out.old.items ++ unread_reason at (words_of line.now)) }
{
    match next_word(line) {
        Some((name, words)) => put_first(out, at, name, words),
        None => out.extend_from_slice(meaning_at(at, b"N2")),
    }
}

// Whether the words behind the first words of two lines are the same.
fn same_operand(line: &[u8], other: &[u8]) -> bool
    ensures { result ≡ same_operand (words_of line.now) (words_of other.now) }
{
    let (Some((_, words)), Some((_, others))) = (next_word(line), next_word(other)) else {
        return false;
    };
    match (next_word(words), next_word(others)) {
        (Some((a, _)), Some((c, _))) => same(a, c),
        (None, _) | (Some(_), None) => false,
    }
}

// What an earlier line has.
fn again_what(name: &[u8], line: &[u8], other: &[u8]) -> &'static [u8]
    ensures { result.now ≡ again_what name.now (words_of line.now) (words_of other.now) }
{
    if !same(name, b"router") {
        return found_in(&AGAIN, name).unwrap_or(b"this setting");
    }
    if same_operand(line, other) {
        b"a router of this number"
    } else {
        b"a router of this identifier"
    }
}

// Whether a word is among others.
fn is_among(word: &[u8], words: &[u8]) -> bool
    ensures { result ≡ list_any (same word.now) (words_of words.now) }
{
    let mut left = words;
    'words: while let Some((other, rest)) = next_word(left) {
        if same(word, other) {
            return true;
        }
        left = rest;
    }
    false
}

// Whether a word stands twice.
fn any_twice(words: &[u8]) -> bool
    ensures { result ≡ any_twice (words_of words.now) }
{
    let mut left = words;
    'words: while let Some((word, rest)) = next_word(left) {
        if is_among(word, rest) {
            return true;
        }
        left = rest;
    }
    false
}

fn within_reason(at: u64, name: &[u8], line: &[u8]) -> &'static [u8]
    ensures { result.now ≡ within_reason at name.now (words_of line.now) }
{
    if same(name, b"link") && any_twice(line) {
        b"a link of a router with itself"
    } else if same(name, b"rank") && any_twice(line) {
        b"a path stands twice on the line"
    } else {
        meaning_at(at, b"N4")
    }
}

#[tactic(auto, unfolding(crate::specs::Reasons::has_text))]
fn put_has(out: &mut Vec<u8>, number: u64, what: &[u8]) -> Result<(), AllocError>
    ensures { OnOk result (out.new.items ≡ out.old.items ++ has_text number what.now) }
{
    out.extend_from_slice(b"line ")?;
    put_len(out, number as usize)?;
    out.extend_from_slice(b" has ")?;
    out.extend_from_slice(what)
}

// Appends what the line of a number has, which a line says again.
fn put_earlier(
    out: &mut Vec<u8>,
    input: &[u8],
    name: &[u8],
    line: &[u8],
    number: u64,
) -> Result<(), AllocError>
    ensures { OnOk result
        (out.new.items ≡ out.old.items ++ earlier_text input.now name.now (words_of line.now) number) }
{
    let other = line_at(input, number).unwrap_or(b"");
    put_has(out, number, again_what(name, line, other))
}

fn put_clash(
    out: &mut Vec<u8>,
    input: &[u8],
    at: u64,
    name: &[u8],
    line: &[u8],
) -> Result<(), AllocError>
    ensures { OnOk result
        (out.new.items ≡ out.old.items
        ++ clash_reason input.now at name.now (words_of line.now) (before_clash (words_of line.now) (lines_of input.now))) }
{
    let number = before_clash(line, input) + 1;
    if number < at {
        put_earlier(out, input, name, line, number)
    } else {
        out.extend_from_slice(within_reason(at, name, line))
    }
}

// Appends what came before.
fn put_again(out: &mut Vec<u8>, input: &[u8], at: u64, line: &[u8]) -> Result<(), AllocError>
    ensures { OnOk result (out.new.items ≡ out.old.items ++ again_reason input.now at (words_of line.now)) }
{
    match next_word(line) {
        Some((name, _)) => put_clash(out, input, at, name, line),
        None => out.extend_from_slice(meaning_at(at, b"N4")),
    }
}

/// The faulty path of a rule.
pub(crate) fn faulty_of(line: &[u8]) -> Option<&[u8]>
    ensures { option_copied result ≡ faulty_of (words_of line.now) }
{
    let (_, words) = next_word(line)?;
    let (router, rest) = next_word(words)?;
    let (_, paths) = next_word(rest)?;
    faulty_in(router, paths)
}

/// The router of a rule, as it is spelt.
pub(crate) fn router_of(line: &[u8]) -> &[u8]
    ensures { result.now ≡ router_of (words_of line.now) }
{
    let Some((_, words)) = next_word(line) else {
        return b"";
    };
    match next_word(words) {
        Some((router, _)) => router,
        None => b"",
    }
}

#[tactic(auto, unfolding(crate::specs::Reasons::other_text))]
fn put_other(out: &mut Vec<u8>, path: &[u8], router: &[u8]) -> Result<(), AllocError>
    ensures { OnOk result (out.new.items ≡ out.old.items ++ other_text path.now router.now) }
{
    put_shown(out, path)?;
    out.extend_from_slice(b" doesn't begin with its router, ")?;
    put_shown(out, router)
}

// Appends why the path of a router's rule is faulty, if it is known which is.
fn put_rule(
    out: &mut Vec<u8>,
    at: u64,
    router: &[u8],
    faulty: Option<&[u8]>,
) -> Result<(), AllocError>
    ensures { OnOk result (out.new.items ≡ out.old.items ++ rule_reason at router.now (option_copied faulty.entry)) }
{
    let Some(path) = faulty else {
        return out.extend_from_slice(meaning_at(at, b"N7"));
    };
    if same(first_number(path), router) {
        put_with(out, path, b" has a router twice")
    } else {
        put_other(out, path, router)
    }
}

#[tactic(auto, unfolding(crate::specs::Reasons::known_reason))]
fn put_known(
    out: &mut Vec<u8>,
    input: &[u8],
    at: u64,
    code: &[u8],
    line: &[u8],
) -> Result<(), AllocError>
    ensures { OnOk result (out.new.items ≡ out.old.items ++ known_reason input.now at code.now line.now) }
{
    if same(code, b"N1") {
        return out.extend_from_slice(form_reason(input, at, line));
    }
    if same(code, b"N2") {
        return put_unread(out, at, line);
    }
    if same(code, b"N4") {
        return put_again(out, input, at, line);
    }
    if same(code, b"N7") {
        return put_rule(out, at, router_of(line), faulty_of(line));
    }
    out.extend_from_slice(meaning_at(at, code))
}

/// Appends why a line is refused, or the whole input, if no line is known.
pub(crate) fn put_reason(
    out: &mut Vec<u8>,
    input: &[u8],
    at: u64,
    code: &[u8],
    found: Option<&[u8]>,
) -> Result<(), AllocError>
    ensures { OnOk result (out.new.items ≡ out.old.items ++ reason input.now at code.now (option_copied found.entry)) }
{
    match found {
        Some(line) if line.len() <= MOST_COMPARED => put_known(out, input, at, code, line),
        Some(_) | None => out.extend_from_slice(meaning_at(at, code)),
    }
}
