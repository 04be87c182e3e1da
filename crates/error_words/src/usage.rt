//! The words on arguments that the program does not take.

ghost use Rattle.std.specs.Prelude.{◌≡◌, ◌++◌, OnOk};
ghost use Rattle.std.specs.Option.{option_copied};
ghost use Rattle.error_words.specs.Saying.{bound_of, reads_alone, usage_of, is_file, file_text, used_said, words_said};

use crate::hints::has;
use crate::showing::put_shown;
use net_text::lexing::same;
use std::alloc::AllocError;
use text_engines::INPUT_LIMIT;

// How many octets of what `decode` reads are looked at.
const LOOKED_AT: usize = 512;

/// How many octets at the front of an input are kept for the words on it, by the word that reads it: of hex the first
/// ones.
pub fn bound_of(word: &[u8]) -> usize
    ensures { result ≡ bound_of word.now }
{
    if same(word, b"decode") {
        LOOKED_AT
    } else {
        INPUT_LIMIT
    }
}

// Whether a word reads an input, with no number behind it.
fn reads_alone(word: &[u8]) -> bool
    ensures { result ≡ reads_alone word.now }
{
    same(word, b"decode")
        || same(word, b"check")
        || same(word, b"play")
        || same(word, b"trace")
        || same(word, b"run")
        || same(word, b"record")
        || same(word, b"stable")
        || same(word, b"safe")
}

// What stands behind a word that reads an input.
fn usage_of(word: &[u8]) -> Option<&'static [u8]>
    ensures { option_copied result ≡ usage_of word.now }
{
    if same(word, b"cut") {
        return Some(b" S < ");
    }
    if same(word, b"why") {
        return Some(b" U < ");
    }
    if reads_alone(word) {
        Some(b" < ")
    } else {
        None
    }
}

// Whether a word is a name of a file: no option, with a dot or a slash.
fn is_file(name: &[u8]) -> bool
    ensures { result ≡ is_file name.now }
{
    let is_option = match name {
        [b'-', ..] => true,
        _ => false,
    };
    !is_option && (has(b'.', name) || has(b'/', name))
}

#[tactic(auto, unfolding(crate::specs::Saying::file_text))]
fn put_file(out: &mut Vec<u8>, word: &[u8], usage: &[u8], name: &[u8]) -> Result<(), AllocError>
    ensures { OnOk result (out.new.items ≡ out.old.items ++ file_text word.now usage.now name.now) }
{
    out.extend_from_slice(b"bgpnet: the input is the standard input: bgpnet ")?;
    out.extend_from_slice(word)?;
    out.extend_from_slice(usage)?;
    put_shown(out, name)?;
    out.extend_from_slice(b"\n")
}

/// Appends the words on arguments that the program does not take, by the first and the last of them: how the input is
/// given, if the last is a name of a file.
pub(crate) fn put_words(out: &mut Vec<u8>, word: &[u8], name: &[u8]) -> Result<(), AllocError>
    ensures { OnOk result (out.new.items ≡ out.old.items ++ words_said word.now name.now) }
{
    match usage_of(word) {
        Some(usage) if is_file(name) => put_file(out, word, usage, name),
        Some(_) | None => Ok(()),
    }
}
