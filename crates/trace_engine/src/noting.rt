//! The comments behind an event, whose first words are those of a list.

ghost use Rattle.std.specs.Prelude.{◌≡◌, ◌++◌, OnOk};
ghost use Rattle.net_text.specs.Lexing.{lines_of, words_of};
ghost use Rattle.trace_engine.specs.Noting.{begins_note, begin_note, note_line, notes_text};

use net_text::lexing::{next_line, next_word, same};
use std::alloc::AllocError;

// Whether what is said of an event begins with this word; with the word `octets` only if they are shown.
fn begins_note(shows_octets: bool, name: &[u8]) -> bool
    ensures { result ≡ begins_note shows_octets name.now }
{
    same(name, b"sends")
        || shows_octets && same(name, b"octets")
        || same(name, b"takes")
        || same(name, b"hears")
        || same(name, b"tells")
        || same(name, b"offers")
        || same(name, b"keeps")
        || same(name, b"session")
        || same(name, b"records")
}

// Whether a line begins as one that is said of an event does.
fn is_note(shows_octets: bool, line: &[u8]) -> bool
    ensures { result ≡ begin_note shows_octets (words_of line.now) }
{
    match next_word(line) {
        Some((name, _)) => begins_note(shows_octets, name),
        None => false,
    }
}

// Appends a line as a comment, behind the word `also` if it begins with another word than those.
fn put_note(shows_octets: bool, line: &[u8], out: &mut Vec<u8>) -> Result<(), AllocError>
    ensures { OnOk result (out.new.items ≡ out.old.items ++ note_line shows_octets line.now) }
{
    out.extend_from_slice(if is_note(shows_octets, line) {
        b"# "
    } else {
        b"# also "
    })?;
    out.extend_from_slice(line)?;
    out.extend_from_slice(b"\n")
}

/// Appends each line of what was said of an event as a comment. It is refused only for want of memory.
pub(crate) fn put_notes(
    shows_octets: bool,
    text: &[u8],
    out: &mut Vec<u8>,
) -> Result<(), AllocError>
    ensures { OnOk result (out.new.items ≡ out.old.items ++ notes_text shows_octets (lines_of text.now)) }
{
    let mut left = text;
    'lines: while !left.is_empty() {
        let (line, rest) = next_line(left);
        put_note(shows_octets, line, out)?;
        left = rest;
    }
    Ok(())
}
