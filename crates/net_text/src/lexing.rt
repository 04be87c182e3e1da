//! Lines of a text, words of a line, parts of a word.

ghost use Rattle.std.specs.Prelude.{◌≡◌, ◌≢◌, ℕ, ◌+◌, ◌-◌, ◌<◌, ◌≤◌, ◌==◌, nat_le, List, take, map, ◌++◌, ◌∷◌, [], true, false, length, slice_index, IfSome, IfNone};
ghost use Rattle.std.specs.Simd.Lanes.{mask_l};
ghost use Rattle.net_text.specs.Lexing.{lines_of, words_of, parts, same, is_blank, is_skipped, is_ascii, without_return, IsWordNext};

use std::simd::prelude::*;

// Which of the octets are this one, the first in the lowest bit.
fn marks_of(octets: u8x16, wanted: u8) -> u64
    ensures { result ≡ mask_l (map (λ x. x == wanted) octets) }
{
    octets.simd_eq(u8x16::splat(wanted)).to_bitmask()
}

// The first place of the octet `wanted` from `from` on, or the length.
fn place_from(octets: &[u8], from: usize, wanted: u8) -> usize
    requires { from ≤ length octets.now }
    ensures bound { result ≤ length octets.now }
    ensures before { (k : ℕ) → from ≤ k → k < result → slice_index octets.now k ≢ wanted }
    ensures found { result < length octets.now → slice_index octets.now result ≡ wanted }
{
    let mut at = from;
    while at < octets.len() && octets[at] != wanted {
        at += 1;
    }
    at
}

// The first place of the octet `wanted`, or the length. The first two octets are looked at by themselves, since many
// lines end there; then sixteen are compared at a time, and the last ones one by one.
fn place_of(octets: &[u8], wanted: u8) -> usize
    ensures bound { result ≤ length octets.now }
    ensures before { (k : ℕ) → k < result → slice_index octets.now k ≢ wanted }
    ensures found { result < length octets.now → slice_index octets.now result ≡ wanted }
{
    if !octets.is_empty() && octets[0] == wanted {
        return 0;
    }
    if octets.len() > 1 && octets[1] == wanted {
        return 1;
    }
    let mut at = 0usize;
    while octets.len() - at >= 16 {
        let marks = marks_of(u8x16::from_slice(&octets[at..]), wanted);
        if marks != 0 {
            return at + marks.trailing_zeros() as usize;
        }
        at += 16;
    }
    place_from(octets, at, wanted)
}

// The line without the CR that stands before its LF.
fn chomp(line: &[u8]) -> &[u8]
    ensures { result.now ≡ without_return line.now }
{
    let end = line.len();
    if end == 0 || line[end - 1] != b'\r' {
        return line;
    }
    let (front, _) = line.split_at(end - 1);
    front
}

/// The first line, without its end, and the lines behind it.
pub fn next_line(text: &[u8]) -> (&[u8], &[u8])
    requires { 0 < length text.now }
    ensures lines { lines_of text.now ≡ result.0.now ∷ lines_of result.1.now }
    ensures shorter { length result.1.now < length text.now }
    ensures whole { text.now ≡ take (length text.now - length result.1.now) text.now ++ result.1.now }
    // If more lines follow, the first line would be the same before any others.
    ensures others { (more : List ℕ) → 0 < length result.1.now
        → lines_of (take (length text.now - length result.1.now) text.now ++ more) ≡ result.0.now ∷ lines_of more }
{
    let end = place_of(text, b'\n');
    if end == text.len() {
        return (text, &[]);
    }
    let (line, _) = text.split_at(end);
    let (_, rest) = text.split_at(end + 1);
    (chomp(line), rest)
}

fn is_blank(x: u8) -> bool
    ensures { result ≡ is_blank x }
{
    x == b' ' || x == b'\t'
}

// The line from its first word on.
fn skip_blanks(line: &[u8]) -> &[u8]
    ensures words { words_of result.now ≡ words_of line.now }
    ensures shorter { length result.now ≤ length line.now }
    ensures first { IsWordNext result.now }
{
    let mut left = line;
    'blanks: while let [x, rest @ ..] = left {
        if !is_blank(*x) {
            break;
        }
        left = rest;
    }
    left
}

// Which of the octets are at most a space, as blanks are, the first in the lowest bit.
fn low_ones(octets: u8x8) -> u64
    ensures { result ≡ mask_l (map (λ x. nat_le x 32) octets) }
{
    octets.simd_le(u8x8::splat(b' ')).to_bitmask()
}

// The first place that can be a blank's: no octet before it is a blank. Eight octets are compared at a
// time, and the last ones of a line not at all.
fn blank_from(line: &[u8]) -> usize
    ensures bound { result ≤ length line.now }
    ensures before { (k : ℕ) → k < result → is_blank (slice_index line.now k) ≡ false }
{
    let mut at = 0usize;
    while line.len() - at >= 8 {
        let marks = low_ones(u8x8::from_slice(&line[at..]));
        if marks != 0 {
            return at + marks.trailing_zeros() as usize;
        }
        at += 8;
    }
    at
}

// The first place of a blank, or the length.
fn word_len(line: &[u8]) -> usize
    ensures bound { result ≤ length line.now }
    ensures before { (k : ℕ) → k < result → is_blank (slice_index line.now k) ≡ false }
    ensures found { result < length line.now → is_blank (slice_index line.now result) ≡ true }
{
    let mut at = blank_from(line);
    while at < line.len() && !is_blank(line[at]) {
        at += 1;
    }
    at
}

/// The first word of a line, and what is behind it.
pub fn next_word(line: &[u8]) -> Option<(&[u8], &[u8])>
    ensures none { IfNone result (words_of line.now ≡ []) }
    ensures some { IfSome result (λ p. words_of line.now ≡ p.0.now ∷ words_of p.1.now) }
    ensures shorter { IfSome result (λ p. length p.1.now < length line.now) }
{
    let left = skip_blanks(line);
    if left.is_empty() {
        return None;
    }
    Some(left.split_at(word_len(left)))
}

/// The word of a line, if it has exactly one.
pub fn one_word(line: &[u8]) -> Option<&[u8]>
    ensures some { IfSome result (λ a. words_of line.now ≡ a.now ∷ []) }
    ensures none { IfNone result (length (words_of line.now) ≢ 1) }
{
    let (word, rest) = next_word(line)?;
    if let Some(_) = next_word(rest) {
        return None;
    }
    Some(word)
}

/// The two words of a line, if it has exactly two.
pub fn two_words(line: &[u8]) -> Option<(&[u8], &[u8])>
    ensures some { IfSome result (λ p. words_of line.now ≡ p.0.now ∷ p.1.now ∷ []) }
    ensures none { IfNone result (length (words_of line.now) ≢ 2) }
{
    let (word, rest) = next_word(line)?;
    Some((word, one_word(rest)?))
}

/// Whether the line has no word, or its first word begins a comment.
pub fn is_skipped(line: &[u8]) -> bool
    ensures { result ≡ is_skipped line.now }
{
    match next_word(line) {
        None => true,
        Some(([b'#', ..], _)) => true,
        Some(_) => false,
    }
}

// Which of the octets are not ASCII, the first in the lowest bit.
fn others(octets: u8x8) -> u64
    ensures { result ≡ mask_l (map (λ x. nat_le 128 x) octets) }
{
    octets.simd_ge(u8x8::splat(128)).to_bitmask()
}

/// Whether each octet of the line is one of ASCII. Eight are tested at a time, the last eight of a
/// line maybe once more.
pub fn is_ascii(line: &[u8]) -> bool
    ensures { result ≡ is_ascii line.now }
{
    if line.len() < 8 {
        return line.iter().all(|x| *x < 128);
    }
    let mut at = 0usize;
    while line.len() - at > 8 {
        if others(u8x8::from_slice(&line[at..])) != 0 {
            return false;
        }
        at += 8;
    }
    others(u8x8::from_slice(&line[line.len() - 8..])) == 0
}

/// Whether two words are the same.
pub fn same(word: &[u8], other: &[u8]) -> bool
    ensures { result ≡ same word.now other.now }
{
    word == other
}

// The word before the first separator, and the rest behind it. `None` if it has no separator.
pub(crate) fn cut(word: &[u8], separator: u8) -> Option<(&[u8], &[u8])>
    ensures none { IfNone result (parts separator word.now ≡ word.now ∷ []) }
    ensures some { IfSome result (λ p. parts separator word.now ≡ p.0.now ∷ parts separator p.1.now) }
    ensures shorter { IfSome result (λ p. length p.1.now < length word.now) }
{
    let end = place_of(word, separator);
    if end == word.len() {
        return None;
    }
    let (part, _) = word.split_at(end);
    let (_, rest) = word.split_at(end + 1);
    Some((part, rest))
}
