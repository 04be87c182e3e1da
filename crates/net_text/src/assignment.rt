//! An assignment text, line by line.

ghost use Rattle.std.specs.Prelude.{◌≡◌, ◌≢◌, ◌+◌, ◌<◌, ◌^◌, ◌∷◌, [], Ok, length, IfOk, IfErr, IfSome, IfNone};
ghost use Rattle.net_text.specs.Lexing.{lines_of, words_of};
ghost use Rattle.net_text.specs.Assignments.{entry_reading, assignment_reading, RefusesAssignment};
ghost use Rattle.net_text.specs.Steps.{Steps};

use crate::code::{Code, Refused};
use crate::entries::Entries;
use crate::lexing::{is_ascii, is_skipped, next_line, next_word, same};
use crate::paths::{is_short_assigned, judge_assigned, take_assigned};
use crate::words::{origin_word, router_word};
use prefix_lanes::Prefix;
use ranked_policy::{Asn, NetItems, Network, Path};
use std::alloc::Global;

/// The path that a line gives a router for a prefix.
#[derive(Debug, Drop)]
pub struct Entry {
    /// The line.
    pub line: usize,
    /// The router.
    pub router: Asn,
    /// The prefix.
    pub prefix: Prefix,
    /// The path; empty if the line gives the router none.
    pub path: Path,
}

// The three words of a line, if it has exactly three.
fn three_words(words: &[u8]) -> Option<(&[u8], &[u8], &[u8])>
    ensures some { IfSome result (λ p. words_of words.now ≡ p.0.now ∷ p.1.now ∷ p.2.now ∷ []) }
    ensures none { IfNone result (length (words_of words.now) ≢ 3) }
{
    let (a, rest) = next_word(words)?;
    let (b, rest) = next_word(rest)?;
    let (c, rest) = next_word(rest)?;
    if let Some(_) = next_word(rest) {
        return None;
    }
    Some((a, b, c))
}

// Takes the entry of a line, if it has one.
fn read_line(
    alloc: Global,
    network: &Network,
    line: usize,
    entries: &mut Entries,
    text: &[u8],
) -> Result<(), Code>
    ensures { Steps result (entry_reading network.now line entries.old text.now) entries.new }
{
    if is_skipped(text) {
        return Ok(());
    }
    if !is_ascii(text) {
        return Err(Code::BadForm);
    }
    let Some((name, words)) = next_word(text) else {
        return Ok(());
    };
    if !same(name, b"path") {
        return Err(Code::BadForm);
    }
    let Some((router, prefix, path)) = three_words(words) else {
        return Err(Code::BadForm);
    };
    let router = router_word(network.settings().width, network.routers(), router)?;
    let prefix = origin_word(network.origins(), prefix)?;
    judge_assigned(network.settings().width, network.built(), path)?;
    if entries.give(router, &prefix) {
        return Err(Code::Repeated);
    }
    if !is_short_assigned(path) {
        return Err(Code::OutOfLimit);
    }
    let Ok(path) = take_assigned(alloc, path) else {
        return Err(Code::Memory);
    };
    let entry = Entry {
        line,
        router,
        prefix,
        path,
    };
    entries.push(entry).map_err(|_| Code::Memory)
}

/// The entries of an assignment text, in the order of its lines. `before` lines stand before it.
///
/// Refused for its first faulty line. Refused with `Memory` if a growth is refused; then no line so far has a fault.
pub fn read_assignment(
    alloc: Global,
    text: &[u8],
    before: usize,
    network: &Network,
) -> Result<NetItems<Entry>, Refused>
    requires { before + length text.now < 2 ^ 64 }
    ensures ok { IfOk result (λ entries. assignment_reading network.now before (lines_of text.now) ≡ Ok entries) }
    ensures err { IfErr result
        (λ refused. RefusesAssignment network.now before (lines_of text.now) refused.line refused.code) }
    // The line that is named was reached.
    ensures reached { IfErr result (λ refused. before < refused.line) }
{
    let mut entries = Entries::new(alloc);
    let mut line = before;
    let mut left = text;
    'lines: while !left.is_empty() {
        let (front, rest) = next_line(left);
        line += 1;
        if let Err(code) = read_line(alloc, network, line, &mut entries, front) {
            return Err(Refused { line, code });
        }
        left = rest;
    }
    Ok(entries.into_items())
}
