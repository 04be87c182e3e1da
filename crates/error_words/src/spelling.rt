//! How operands are spelt: which word can't be read, and which path of a rule is faulty.

ghost use Rattle.std.specs.Prelude.{◌≡◌, ◌++◌, ◌∷◌, IfOk, OnOk};
ghost use Rattle.std.specs.Option.{option_copied};
ghost use Rattle.net_text.specs.Lexing.{words_of};
ghost use Rattle.net_text.specs.Words.{is_digit};
ghost use Rattle.error_words.specs.Spelling.{is_dashed, no_path_in, before_dash, first_number, stands_behind, has_twice, faulty_in, is_last, turned, is_turned};

use crate::showing::MOST_SHOWN;
use net_text::lexing::{next_word, same};
use std::alloc::{AllocError, Global};

fn is_digit(x: u8) -> bool
    ensures { result ≡ is_digit x }
{
    x.is_ascii_digit()
}

// Whether a word is numbers with dashes between them.
fn is_dashed(word: &[u8]) -> bool
    ensures { result ≡ is_dashed word.now }
{
    let mut behind = false;
    for x in word {
        if is_digit(*x) {
            behind = true;
        } else if *x == b'-' && behind {
            behind = false;
        } else {
            return false;
        }
    }
    behind
}

/// The first word that is no numbers with dashes between them.
pub(crate) fn no_path_in(words: &[u8]) -> Option<&[u8]>
    ensures { option_copied result ≡ no_path_in (words_of words.now) }
{
    let mut left = words;
    'words: while let Some((word, rest)) = next_word(left) {
        if !is_dashed(word) {
            return Some(word);
        }
        left = rest;
    }
    None
}

fn before_dash(word: &[u8]) -> usize
    ensures { result ≡ before_dash word.now }
{
    let mut before = 0usize;
    for x in word {
        if *x == b'-' {
            return before;
        }
        before += 1;
    }
    before
}

/// The first number of a path, as it is spelt.
pub(crate) fn first_number(word: &[u8]) -> &[u8]
    ensures { result.now ≡ first_number word.now }
{
    let before = before_dash(word).min(word.len());
    let (number, _) = word.split_at(before);
    number
}

fn stands_behind(number: &[u8], word: &[u8]) -> bool
    ensures { result ≡ stands_behind number.now word.now }
{
    let mut left = word;
    'octets: while let [x, rest @ ..] = left {
        if *x == b'-' && same(first_number(rest), number) {
            return true;
        }
        left = rest;
    }
    false
}

// Whether a number stands twice in a path.
fn has_twice(word: &[u8]) -> bool
    ensures { result ≡ has_twice word.now }
{
    let mut starts = true;
    let mut left = word;
    'octets: while let [x, rest @ ..] = left {
        if starts && stands_behind(first_number(left), rest) {
            return true;
        }
        starts = *x == b'-';
        left = rest;
    }
    false
}

/// The first path of a router's rule that does not begin with its number, or has a number twice. `None` also if a path
/// before it is longer than [`MOST_SHOWN`].
pub(crate) fn faulty_in<'a>(number: &[u8], words: &'a [u8]) -> Option<&'a [u8]>
    ensures { option_copied result ≡ faulty_in number.now (words_of words.now) }
{
    let mut left = words;
    'words: while let Some((word, rest)) = next_word(left) {
        if MOST_SHOWN < word.len() {
            return None;
        }
        if !same(first_number(word), number) || has_twice(word) {
            return Some(word);
        }
        left = rest;
    }
    None
}

fn is_last(number: &[u8], word: &[u8]) -> bool
    ensures { result ≡ is_last number.now word.now }
{
    if word.len() <= number.len() {
        return false;
    }
    let (_, end) = word.split_at(word.len() - number.len());
    same(end, number)
}

/// Whether a path is turned round: it ends by this number, and would begin with it.
pub(crate) fn is_turned(number: &[u8], word: &[u8]) -> bool
    ensures { result ≡ is_turned number.now word.now }
{
    !same(first_number(word), number) && is_last(number, word) && !has_twice(word)
}

// What was done, with a number and a dash before it.
fn with_number(alloc: Global, number: &[u8], done: &[u8]) -> Result<Vec<u8>, AllocError>
    ensures { IfOk result (λ all. all.items ≡ 45 ∷ (number.now ++ done.now)) }
{
    let mut all = Vec::new(alloc);
    all.extend_from_slice(b"-")?;
    all.extend_from_slice(number)?;
    all.extend_from_slice(done)?;
    Ok(all)
}

/// Appends the numbers of a path in the other order.
pub(crate) fn put_turned(alloc: Global, out: &mut Vec<u8>, word: &[u8]) -> Result<(), AllocError>
    ensures { OnOk result (out.new.items ≡ out.old.items ++ turned word.now) }
{
    let mut done = Vec::new(alloc);
    let mut begun = Vec::new(alloc);
    for x in word {
        if *x == b'-' {
            done = with_number(alloc, begun.as_slice(), done.as_slice())?;
            begun.clear();
        } else {
            begun.push(*x)?;
        }
    }
    out.extend_from_slice(begun.as_slice())?;
    out.extend_from_slice(done.as_slice())
}
