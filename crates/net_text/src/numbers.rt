//! The parts of a word that is a path, and its numbers: as many as a path may have are read once, those behind them are
//! read again for each question.

ghost use Rattle.std.specs.Prelude.{◌≡◌, ◌<◌, ◌≤◌, ◌==◌, ◌∷◌, [], ◌++◌, true, false, length, map, take, Ok, Err, IfOk, IfErr};
ghost use Rattle.std.specs.List.{list_all, list_any};
ghost use Rattle.std.specs.Iterator.{YieldsFirst};
ghost use Rattle.ranked_policy.specs.Tests.{is_simple};
ghost use Rattle.net_text.specs.Lexing.{parts};
ghost use Rattle.net_text.specs.Words.{is_number, value_of, path_of, is_from};
ghost use Rattle.net_text.specs.Taking.{parts_left, numbers_left, digest, digest_next};

use crate::code::Code;
use crate::lexing::cut;
use crate::words::{is_number, number_of, value_of};
use ranked_policy::{Asn, LONGEST_PATH};

// What a digest is multiplied by: odd, with bits everywhere.
const DIGEST_FACTOR: u64 = 0x9e37_79b9_7f4a_7c15;

/// The parts of a word, which have dashes between them.
#[derive(Clone, Copy)]
pub(crate) struct Parts<'a>(Option<&'a [u8]>);

impl<'a> Parts<'a> {
    pub(crate) fn of(word: &'a [u8]) -> Parts<'a>
        ensures { parts_left result ≡ parts 45 word.now }
    {
        Parts(Some(word))
    }

    /// No parts.
    pub(crate) fn none() -> Parts<'a>
        ensures { parts_left result ≡ [] }
    {
        Parts(None)
    }

    /// Whether none is left.
    pub(crate) fn is_empty(&self) -> bool
        ensures { result ≡ (length (parts_left self.now) == 0) }
    {
        self.0.is_none()
    }
}

impl<'a> Iterator for Parts<'a> {
    ghost use Rattle.std.specs.Iterator.{YieldsFirstRef, item_count};
    ghost use Rattle.net_text.specs.Taking.{parts_left};

    type Item = &'a [u8];

    ghost next_gives = { YieldsFirstRef parts_left };

    ghost remaining = { item_count parts_left };

    fn next(&mut self) -> Option<&'a [u8]> {
        let word = self.0?;
        match cut(word, b'-') {
            None => {
                self.0 = None;
                Some(word)
            }
            Some((part, rest)) => {
                self.0 = Some(rest);
                Some(part)
            }
        }
    }
}

// The number of the first part, and the parts behind it. Most paths have none that were not read, so this stands apart.
#[cold]
#[inline(never)]
fn first_number(left: Parts<'_>) -> (Option<u64>, Parts<'_>)
    ensures { YieldsFirst (λ ps. map value_of (parts_left ps)) left.entry result.0 result.1 }
{
    let mut left = left;
    match left.next() {
        Some(part) => (Some(value_of(part)), left),
        None => (None, left),
    }
}

/// The numbers of a path.
#[derive(Clone, Copy)]
pub(crate) struct Numbers<'a> {
    /// Those in front, which were read.
    pub(crate) read: &'a [u64],
    /// The parts of those behind.
    pub(crate) left: Parts<'a>,
}

impl<'a> Iterator for Numbers<'a> {
    ghost use Rattle.std.specs.Iterator.{YieldsFirst, item_count};
    ghost use Rattle.net_text.specs.Taking.{numbers_left};

    type Item = u64;

    ghost next_gives = { YieldsFirst numbers_left };

    ghost remaining = { item_count numbers_left };

    fn next(&mut self) -> Option<u64> {
        if let [number, rest @ ..] = self.read {
            self.read = rest;
            return Some(*number);
        }
        if self.left.is_empty() {
            return None;
        }
        let (number, left) = first_number(self.left);
        self.left = left;
        number
    }
}

impl<'a> Numbers<'a> {
    /// Those of a path that was judged before.
    pub(crate) fn of(word: &'a [u8]) -> Numbers<'a>
        ensures { numbers_left result ≡ path_of word.now }
    {
        Numbers {
            read: &[],
            left: Parts::of(word),
        }
    }

    /// Whether the first is the router's.
    pub(crate) fn are_from(mut self, asn: Asn) -> bool
        ensures { result ≡ is_from asn (numbers_left self.entry) }
    {
        self.next() == Some(u64::from(asn))
    }

    // Whether this number is among them.
    fn have(mut self, number: u64) -> bool
        ensures { result ≡ list_any (λ v. v == number) (numbers_left self.entry) }
    {
        self.any(|other| other == number)
    }

    /// Whether none is there twice.
    pub(crate) fn are_single(self) -> bool
        ensures { result ≡ is_simple (numbers_left self.entry) }
    {
        let mut left = self;
        'numbers: while let Some(number) = left.next() {
            if left.have(number) {
                return false;
            }
        }
        true
    }

    /// Their digest: paths with different digests are different.
    pub(crate) fn digest(self) -> u64
        ensures { result ≡ digest (numbers_left self.entry) }
    {
        self.fold(0, |digest, number| digest_on(digest, number))
    }
}

// The digest of a path that goes on by one number, from the digest of the numbers before.
fn digest_on(digest: u64, number: u64) -> u64
    ensures { result ≡ digest_next digest number }
{
    digest.wrapping_mul(DIGEST_FACTOR).wrapping_add(number)
}

// Whether each of the parts is a number.
fn are_numbers(mut parts: Parts<'_>) -> bool
    ensures { result ≡ list_all is_number (parts_left parts.entry) }
{
    parts.all(|part| is_number(part))
}

/// Reads the numbers of a path, as many as it may have, and answers how many they are, and the parts behind them.
/// Refused with `Unreadable` if a part is no number.
pub(crate) fn read_numbers<'a>(
    word: &'a [u8],
    numbers: &mut [u64; LONGEST_PATH],
) -> Result<(usize, Parts<'a>), Code>
    ensures ok { IfOk result
        (λ p. (list_all is_number (parts 45 word.now) ≡ true)
        × (path_of word.now ≡ take p.0 numbers.new ++ map value_of (parts_left p.1))
        × (p.0 ≤ 16)
        × (0 < length (parts_left p.1) → p.0 ≡ 16)) }
    ensures err { IfErr result
        (λ code. (list_all is_number (parts 45 word.now) ≡ false) × (code ≡ Code.Unreadable)) }
{
    let mut count = 0usize;
    let mut left = Parts::of(word);
    'parts: while count < LONGEST_PATH {
        let Some(part) = left.next() else {
            return Ok((count, left));
        };
        let Some(number) = number_of(part) else {
            return Err(Code::Unreadable);
        };
        numbers[count] = number;
        count += 1;
    }
    if !are_numbers(left) {
        return Err(Code::Unreadable);
    }
    Ok((count, left))
}
