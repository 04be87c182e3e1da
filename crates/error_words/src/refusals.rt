//! Lines that refuse an input, and the line of the input that they name.

ghost use Rattle.std.specs.Prelude.{◌≡◌, None, Some, slice_get, MatchOption};
ghost use Rattle.std.specs.Option.{option_copied};
ghost use Rattle.net_text.specs.Lexing.{words_of, lines_of};
ghost use Rattle.error_words.specs.Refusals.{without_mark, refusal_in, line_at};

use net_text::lexing::{next_line, next_word, same, two_words};
use net_text::words::number_of;

// The line behind the mark of a comment, or the whole line without such a mark.
fn unmarked(line: &[u8]) -> &[u8]
    ensures { words_of result.now ≡ without_mark (words_of line.now) }
{
    let Some((word, rest)) = next_word(line) else {
        return line;
    };
    if same(word, b"#") { rest } else { line }
}

// Which line is refused, and why, by the words of a line without the mark of a comment.
fn refusal_in(line: &[u8]) -> Option<(u64, &[u8])>
    ensures { MatchOption result (refusal_in (words_of line.now) ≡ None)
        (λ p. refusal_in (words_of line.now) ≡ Some (record { at = p.0; code = p.1.now })) }
{
    let (word, rest) = next_word(line)?;
    let (place, code) = two_words(rest)?;
    if !same(word, b"refused") {
        return None;
    }
    let at = number_of(place)?;
    Some((at, code))
}

/// The line that is refused, counted from 1, or 0 for the whole input; and the code of why. `None` if the line refuses
/// nothing.
pub fn refusal_of(line: &[u8]) -> Option<(u64, &[u8])>
    ensures { MatchOption result (refusal_in (without_mark (words_of line.now)) ≡ None)
        (λ p. refusal_in (without_mark (words_of line.now)) ≡ Some (record { at = p.0; code = p.1.now })) }
{
    refusal_in(unmarked(line))
}

// The line behind so many lines, without its end.
fn line_behind(input: &[u8], before: u64) -> Option<&[u8]>
    ensures { option_copied result ≡ slice_get (lines_of input.now) before }
{
    let mut left = input;
    let mut skipped = before;
    'lines: while !left.is_empty() {
        let (line, rest) = next_line(left);
        if skipped == 0 {
            return Some(line);
        }
        skipped -= 1;
        left = rest;
    }
    None
}

/// The line of a number, counted from 1, without its end. `None` for the number 0, and if there are not so many lines.
pub fn line_at(input: &[u8], number: u64) -> Option<&[u8]>
    ensures { option_copied result ≡ line_at input.now number }
{
    if number == 0 {
        return None;
    }
    line_behind(input, number - 1)
}
