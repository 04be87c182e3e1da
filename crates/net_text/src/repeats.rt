//! Whether a path comes twice among many. Once they are in order, two that are the same are neighbours. The memory for
//! that is asked for before their line is read: a rule of so many paths has a fault in any case, and want of memory may
//! not stand in its place.

ghost use Rattle.std.specs.Prelude.{◌≡◌, ◌≤◌, length, map, vec_capacity, IfOk, IsOk, OnOk};
ghost use Rattle.std.specs.Ordering.{nat_cmp};
ghost use Rattle.std.specs.Cmp.Lexicographic.{slice_cmp};
ghost use Rattle.net_text.specs.Lexing.{words_of};
ghost use Rattle.net_text.specs.Words.{path_of};
ghost use Rattle.net_text.specs.Lines.{are_distinct};
ghost use Rattle.net_text.specs.Repeating.{path_in, AreInOrder, is_rule, HasRoom};

use crate::lexing::{next_word, same};
use crate::numbers::Numbers;
use std::alloc::AllocError;
use std::cmp::Ordering;

// The paths of a line of at most so many octets are few enough to be compared in pairs.
const MOST_PAIRED: usize = 4096;

/// How two paths stand to each other, by the first numbers that differ.
pub(crate) fn compare(word: &[u8], other: &[u8]) -> Ordering
    ensures { result ≡ slice_cmp nat_cmp (path_of word.now) (path_of other.now) }
{
    Numbers::of(word).cmp(Numbers::of(other))
}

// How many words a line has.
fn count_words(line: &[u8]) -> usize
    ensures { result ≡ length (words_of line.now) }
{
    let mut count = 0usize;
    let mut left = line;
    'words: while let Some((_, rest)) = next_word(left) {
        count += 1;
        left = rest;
    }
    count
}

// Whether a line is a `rank` line.
fn is_rule(line: &[u8]) -> bool
    ensures { result ≡ is_rule (words_of line.now) }
{
    match next_word(line) {
        Some((name, _)) => same(name, b"rank"),
        None => false,
    }
}

/// Makes room for the paths of the line that comes next, if it is a long line of a rule.
pub(crate) fn make_room<'a>(room: &mut Vec<&'a [u8]>, line: &'a [u8]) -> Result<(), AllocError>
    ensures { OnOk result (HasRoom (vec_capacity room.new) line.now) }
{
    if line.len() <= MOST_PAIRED || !is_rule(line) {
        return Ok(());
    }
    room.clear();
    room.reserve(count_words(line))
}

// Gathers the paths, in the order of their line.
fn gather<'a>(room: &mut Vec<&'a [u8]>, words: &'a [u8]) -> Result<(), AllocError>
    ensures paths { OnOk result (map path_in room.new.items ≡ map path_of (words_of words.now)) }
    ensures room { length (words_of words.now) ≤ vec_capacity room.old → IsOk result }
{
    room.clear();
    let mut left = words;
    'words: while let Some((word, rest)) = next_word(left) {
        room.push(word)?;
        left = rest;
    }
    Ok(())
}

// Puts paths in order.
fn put_in_order(room: &mut Vec<&[u8]>)
    ensures order { AreInOrder (map path_in room.new.items) }
    ensures same { are_distinct (map path_in room.new.items) ≡ are_distinct (map path_in room.old.items) }
{
    room.sort_unstable_by(|word, other| compare(word, other));
}

// Whether no two of these paths, which stand in order, are the same: whether each stands before the next.
fn stand_apart(paths: &[&[u8]]) -> bool
    requires { AreInOrder (map path_in paths.now) }
    ensures { result ≡ are_distinct (map path_in paths.now) }
{
    paths.is_sorted_by(|word, other| compare(word, other).is_lt())
}

/// Whether no path stands twice. If there is room for the paths, it asks for no memory.
pub(crate) fn are_apart_in_order<'a>(
    room: &mut Vec<&'a [u8]>,
    words: &'a [u8],
) -> Result<bool, AllocError>
    ensures apart { IfOk result (λ apart. apart ≡ are_distinct (map path_of (words_of words.now))) }
    ensures room { length (words_of words.now) ≤ vec_capacity room.old → IsOk result }
{
    gather(room, words)?;
    put_in_order(room);
    Ok(stand_apart(room.as_slice()))
}
