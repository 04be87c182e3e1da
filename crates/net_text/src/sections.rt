//! Texts of two parts.

ghost use Rattle.std.specs.Prelude.{◌≡◌, ◌≤◌, ◌+◌, length};
ghost use Rattle.net_text.specs.Lexing.{lines_of, words_of, is_section, before_section, behind_section};

use crate::lexing::{next_line, next_word, same};

/// The two parts of a text. The second is empty if no line parts it.
#[derive(Clone, Copy, Debug)]
pub struct Split<'a> {
    /// The lines before the one that parts the text.
    pub front: &'a [u8],
    /// The lines behind it.
    pub behind: &'a [u8],
    /// How many lines stand before the second part, the line that parts the text included.
    pub before: usize,
}

// Whether the line is this one bare word.
fn is_section(line: &[u8], name: &[u8]) -> bool
    ensures { result ≡ is_section name.now line.now }
{
    match next_word(line) {
        None => false,
        Some((word, rest)) => next_word(rest).is_none() && same(word, name),
    }
}

/// Parts a text at the first line that is one bare word.
pub fn split_at_section<'a>(text: &'a [u8], name: &[u8]) -> Split<'a>
    ensures front { lines_of result.front.now ≡ before_section name.now (lines_of text.now) }
    ensures behind { lines_of result.behind.now ≡ behind_section name.now (lines_of text.now) }
    ensures before { result.before + length (lines_of result.behind.now) ≡ length (lines_of text.now) }
    ensures fits { result.before + length result.behind.now ≤ length text.now }
{
    let mut left = text;
    let mut before = 0usize;
    'lines: while !left.is_empty() {
        let (line, rest) = next_line(left);
        before += 1;
        if is_section(line, name) {
            return Split {
                front: text.split_at(text.len() - left.len()).0,
                behind: rest,
                before,
            };
        }
        left = rest;
    }
    Split {
        front: text,
        behind: &[],
        before,
    }
}
