//! Words that are paths. They are taken into memory only once their whole line is good.

ghost use Rattle.std.specs.Prelude.{◌≡◌, ◌<◌, ◌≤◌, ◌==◌, ◌∷◌, [], true, false, not, nat_le, length, map, take, Ok, Err, IfOk, IfErr, IfSome, if◌then◌else◌};
ghost use Rattle.std.specs.List.{list_all, list_any, All};
ghost use Rattle.net_text.specs.Lexing.{parts, same, words_of};
ghost use Rattle.net_text.specs.Words.{is_number, is_router, value_of, path_of, path_word, is_from, rule_path_word, rule_path_words, is_none, assigned_word, assigned_path};
ghost use Rattle.ranked_policy.specs.Tests.{is_simple};
ghost use Rattle.bgp_values.specs.Ranges.{is_asn};
ghost use Rattle.net_text.specs.Lines.{are_distinct};
ghost use Rattle.net_text.specs.Taking.{numbers_left, IsTakeable, IsBrief, AreBrief, routers_word};

use crate::code::Code;
use crate::lexing::{next_word, same};
use crate::numbers::{Numbers, Parts, read_numbers};
use crate::repeats::{are_apart_in_order, compare};
use crate::words::value_of;
use bgp_values::{Width, is_asn};
use ranked_policy::{Asn, LONGEST_PATH, MOST_PATHS, NetBuilder, Path};
use std::alloc::{AllocError, Global};

/// What a first reading tells of a path.
#[derive(Clone, Copy)]
pub(crate) struct PathBrief {
    /// Its digest: paths with different digests are different.
    digest: u64,
    /// Whether it has no more routers than it may.
    is_short: bool,
}

/// What a first reading tells of the paths of a rule, so that they need not be read for each question.
#[derive(Clone, Copy)]
pub(crate) struct PathsBrief {
    /// How many there are.
    pub(crate) count: usize,
    /// Whether each has no more routers than it may.
    pub(crate) are_short: bool,
    /// The digests of the first of them, as many as a rule may have.
    digests: [u64; MOST_PATHS],
}

// Whether the number is a router's. A network finds its routers by their order.
fn names_router(net: &NetBuilder, number: u64) -> bool
    ensures { result ≡ is_router net.now.routers number }
{
    // what a builder keeps in order is told with its settings
    let _plan = net.settings();
    if number > u64::from(u32::MAX) {
        return false;
    }
    net.has_router(number as Asn)
}

// Judges the numbers of a path of routers.
fn judge_numbers(width: Width, net: &NetBuilder, numbers: Numbers<'_>) -> Result<(), Code>
    ensures { result ≡ routers_word width net.now.routers (numbers_left numbers.entry) }
{
    let (mut left, mut are_routers) = (numbers, true);
    'numbers: while let Some(number) = left.next() {
        if !is_asn(width, number) {
            return Err(Code::OutOfLimit);
        }
        are_routers = are_routers & names_router(net, number);
    }
    if are_routers {
        Ok(())
    } else {
        Err(Code::UnknownRouter)
    }
}

// Judges a path of routers.
fn judge_path(width: Width, net: &NetBuilder, word: &[u8]) -> Result<(), Code>
    ensures { result ≡ path_word width net.now.routers word.now }
{
    let mut read = [0; LONGEST_PATH];
    let (count, left) = read_numbers(word, &mut read)?;
    let numbers = Numbers {
        read: &read[..count],
        left,
    };
    judge_numbers(width, net, numbers)
}

// Judges a path of a rule of this router, and answers what its numbers tell.
fn judge_rule_path(width: Width, net: &NetBuilder, asn: Asn, word: &[u8]) -> Result<PathBrief, Code>
    ensures ok { IfOk result
        (λ brief. (Ok tt ≡ rule_path_word width net.now.routers asn word.now) × IsBrief brief word.now) }
    ensures err { IfErr result (λ code. Err code ≡ rule_path_word width net.now.routers asn word.now) }
{
    let mut read = [0; LONGEST_PATH];
    let (count, left) = read_numbers(word, &mut read)?;
    let numbers = Numbers {
        read: &read[..count],
        left,
    };
    judge_numbers(width, net, numbers)?;
    if !(numbers.are_from(asn) && numbers.are_single()) {
        return Err(Code::NotSimple);
    }
    Ok(PathBrief {
        digest: numbers.digest(),
        is_short: left.is_empty(),
    })
}

// Judges the paths of a rule of this router, which are the words of a line, and tells of them.
pub(crate) fn judge_rule_paths(
    width: Width,
    net: &NetBuilder,
    asn: Asn,
    words: &[u8],
) -> Result<PathsBrief, Code>
    ensures ok { IfOk result
        (λ brief. (Ok tt ≡ rule_path_words width net.now.routers asn (words_of words.now))
        × AreBrief brief (words_of words.now)) }
    ensures err { IfErr result (λ code. Err code ≡ rule_path_words width net.now.routers asn (words_of words.now)) }
{
    let (mut count, mut are_short, mut digests) = (0usize, true, [0u64; MOST_PATHS]);
    let mut left = words;
    'words: while let Some((word, rest)) = next_word(left) {
        let brief = judge_rule_path(width, net, asn, word)?;
        if count < MOST_PATHS {
            digests[count] = brief.digest;
        }
        are_short = are_short & brief.is_short;
        count += 1;
        left = rest;
    }
    Ok(PathsBrief {
        count,
        are_short,
        digests,
    })
}

// Whether two paths are one.
fn same_path(word: &[u8], other: &[u8]) -> bool
    ensures { result ≡ same (path_of word.now) (path_of other.now) }
{
    compare(word, other).is_eq()
}

// Whether one of these words is the same path.
fn has_path(words: &[u8], path: &[u8]) -> bool
    ensures { result ≡ list_any (same (path_of path.now)) (map path_of (words_of words.now)) }
{
    let mut left = words;
    'words: while let Some((word, rest)) = next_word(left) {
        if same_path(path, word) {
            return true;
        }
        left = rest;
    }
    false
}

// Whether no path is there twice, each compared with those behind it.
fn are_apart_in_pairs(words: &[u8]) -> bool
    ensures { result ≡ are_distinct (map path_of (words_of words.now)) }
{
    let mut left = words;
    'words: while let Some((word, rest)) = next_word(left) {
        if has_path(rest, word) {
            return false;
        }
        left = rest;
    }
    true
}

// Whether no path of a few stands twice. Paths are compared only if their digests do not tell them apart.
fn are_apart(words: &[u8], brief: &PathsBrief) -> bool
    requires few { length (words_of words.now) ≤ 32 }
    requires brief { AreBrief brief.now (words_of words.now) }
    ensures { result ≡ are_distinct (map path_of (words_of words.now)) }
{
    let digests = Numbers {
        read: &brief.digests[..brief.count],
        left: Parts::none(),
    };
    if digests.are_single() {
        return true;
    }
    are_apart_in_pairs(words)
}

// Whether no path stands twice. If there are more than a rule may have, they are put in order, since a comparison in
// pairs could take hours. Without memory for that they are compared in pairs: they are few then (`make_room`).
pub(crate) fn are_distinct<'a>(
    words: &'a [u8],
    brief: &PathsBrief,
    room: &mut Vec<&'a [u8]>,
) -> bool
    requires { AreBrief brief.now (words_of words.now) }
    ensures { result ≡ are_distinct (map path_of (words_of words.now)) }
{
    if brief.count <= MOST_PATHS {
        return are_apart(words, brief);
    }
    match are_apart_in_order(room, words) {
        Ok(apart) => apart,
        Err(_) => are_apart_in_pairs(words),
    }
}

// Whether the path has no more routers than it may.
fn is_short(word: &[u8]) -> bool
    ensures { result ≡ nat_le (length (path_of word.now)) LONGEST_PATH }
{
    Numbers::of(word).nth(LONGEST_PATH).is_none()
}

// Takes the path into memory.
fn take_path(alloc: Global, word: &[u8]) -> Result<Path, AllocError>
    requires { IsTakeable word.now }
    ensures { IfOk result (λ path. path ≡ path_of word.now) }
{
    let mut numbers = [0; LONGEST_PATH];
    let mut count = 0usize;
    let mut left = Parts::of(word);
    'parts: while let Some(part) = left.next() {
        numbers[count] = value_of(part) as Asn;
        count += 1;
    }
    Path::from_slice(alloc, &numbers[..count])
}

// Takes the paths, `count` of them, into memory.
pub(crate) fn take_paths(alloc: Global, words: &[u8], count: usize) -> Result<Vec<Path>, AllocError>
    requires { All IsTakeable (words_of words.now) }
    ensures { IfOk result (λ paths. paths.items ≡ map path_of (words_of words.now)) }
{
    let mut paths = Vec::with_capacity(alloc, count)?;
    let mut left = words;
    'words: while let Some((word, rest)) = next_word(left) {
        paths.push(take_path(alloc, word)?)?;
        left = rest;
    }
    Ok(paths)
}

fn is_none(word: &[u8]) -> bool
    ensures { result ≡ is_none word.now }
{
    same(word, b"none")
}

// Judges the path of an assignment, or the word for the empty one.
pub(crate) fn judge_assigned(width: Width, net: &NetBuilder, word: &[u8]) -> Result<(), Code>
    ensures { result ≡ assigned_word width net.now.routers word.now }
{
    if is_none(word) {
        return Ok(());
    }
    judge_path(width, net, word)
}

// Whether the path of an assignment has no more routers than it may.
pub(crate) fn is_short_assigned(word: &[u8]) -> bool
    ensures { result ≡ nat_le (length (assigned_path word.now)) LONGEST_PATH }
{
    is_none(word) || is_short(word)
}

// Takes the path of an assignment into memory.
pub(crate) fn take_assigned(alloc: Global, word: &[u8]) -> Result<Path, AllocError>
    requires { is_none word.now ≡ false → IsTakeable word.now }
    ensures { IfOk result (λ path. path ≡ assigned_path word.now) }
{
    if is_none(word) {
        return Ok(Path::new(alloc));
    }
    take_path(alloc, word)
}
