//! The text said on the standard error.

ghost use Rattle.std.specs.Prelude.{◌≡◌, ◌++◌, Some, OnOk, IfOk};
ghost use Rattle.std.specs.Option.{option_copied};
ghost use Rattle.error_words.specs.Hints.{hint_of_hex};
ghost use Rattle.error_words.specs.Showing.{remark_text};
ghost use Rattle.error_words.specs.Saying.{place_text, found_text, refusal_text, hint_said, no_hex, line_said, named_said, refused_said, stopped_said, said, first_line, answers_network, IsSaid};

use crate::advice::put_advice;
use crate::faults::fault_of;
use crate::hints::{Hint, hint_of_hex, hint_of_line, hint_text};
use crate::reasons::put_reason;
use crate::refusals::{line_at, refusal_of};
use crate::showing::{put_remark, put_shown};
use crate::usage::put_words;
use crate::warnings::input_warnings;
use net_text::lexing::same;
use net_text::put_len;
use std::alloc::{AllocError, Global};
use text_engines::status::{MEMORY, REFUSED, STOPPED, USAGE};

/// How a run of the program ended, and what is known of it.
#[derive(Clone, Copy)]
pub struct End<'a> {
    /// The first word behind the program's name.
    pub word: &'a [u8],
    /// The last word behind the program's name, if there are several.
    pub name: &'a [u8],
    /// The status.
    pub status: u8,
    /// Whether a read failed.
    pub read_failed: bool,
    /// The line that was printed last.
    pub last: &'a [u8],
    /// The front of the input.
    pub input: &'a [u8],
}

// Appends of which line a refusal is.
fn put_place(out: &mut Vec<u8>, at: u64) -> Result<(), AllocError>
    ensures { OnOk result (out.new.items ≡ out.old.items ++ place_text at) }
{
    if at == 0 {
        return Ok(());
    }
    out.extend_from_slice(b"line ")?;
    put_len(out, at as usize)?;
    out.extend_from_slice(b": ")
}

// Appends the line that is refused, if it is known.
fn put_found(out: &mut Vec<u8>, found: Option<&[u8]>) -> Result<(), AllocError>
    ensures { OnOk result (out.new.items ≡ out.old.items ++ found_text (option_copied found.entry)) }
{
    let Some(line) = found else {
        return Ok(());
    };
    out.extend_from_slice(b": ")?;
    put_shown(out, line)
}

#[tactic(auto, unfolding(crate::specs::Saying::refusal_text))]
fn put_refusal(
    out: &mut Vec<u8>,
    input: &[u8],
    at: u64,
    code: &[u8],
    found: Option<&[u8]>,
) -> Result<(), AllocError>
    ensures { OnOk result (out.new.items ≡ out.old.items ++ refusal_text input.now at code.now (option_copied found.entry)) }
{
    out.extend_from_slice(b"bgpnet: ")?;
    put_place(out, at)?;
    out.extend_from_slice(code)?;
    out.extend_from_slice(b": ")?;
    put_reason(out, input, at, code, found)?;
    put_found(out, found)?;
    out.extend_from_slice(b"\n")
}

fn put_hint(out: &mut Vec<u8>, hint: Option<Hint>) -> Result<(), AllocError>
    ensures { OnOk result (out.new.items ≡ out.old.items ++ hint_said hint) }
{
    match hint {
        Some(hint) => put_remark(out, hint_text(hint)),
        None => Ok(()),
    }
}

// Appends the words that help with a line: a hint on it, or what to write in its place.
#[tactic(auto, unfolding(crate::specs::Saying::line_said))]
fn put_help(
    alloc: Global,
    out: &mut Vec<u8>,
    input: &[u8],
    at: u64,
    code: &[u8],
    line: &[u8],
) -> Result<(), AllocError>
    ensures { OnOk result (out.new.items ≡ out.old.items ++ line_said input.now at code.now line.now) }
{
    match hint_of_line(input, line) {
        Some(hint) => put_remark(out, hint_text(hint)),
        None => put_advice(alloc, out, input, at, code, line),
    }
}

// Appends the words on a line that is refused.
fn put_named(
    alloc: Global,
    out: &mut Vec<u8>,
    input: &[u8],
    at: u64,
    code: &[u8],
) -> Result<(), AllocError>
    ensures { OnOk result
        (out.new.items ≡ out.old.items ++ named_said input.now (Some (record { at = at; code = code.now }))) }
{
    let found = line_at(input, at);
    put_refusal(out, input, at, code, found)?;
    put_help(alloc, out, input, at, code, found.unwrap_or(b""))
}

// Appends the words on an input that is no hex.
fn put_no_hex(out: &mut Vec<u8>, input: &[u8]) -> Result<(), AllocError>
    ensures { OnOk result
        (out.new.items
        ≡ out.old.items ++ (remark_text no_hex ++ hint_said (hint_of_hex input.now (first_line input.now)))) }
{
    put_remark(
        out,
        b"the input has an octet that is no hex digit and no blank, or half an octet",
    )?;
    let first = line_at(input, 1);
    put_hint(out, hint_of_hex(input, first.unwrap_or(b"")))
}

fn put_refused(
    alloc: Global,
    out: &mut Vec<u8>,
    last: &[u8],
    input: &[u8],
) -> Result<(), AllocError>
    ensures { OnOk result (out.new.items ≡ out.old.items ++ refused_said last.now input.now) }
{
    if same(last, b"bad hex") {
        return put_no_hex(out, input);
    }
    if let Some(fault) = fault_of(last) {
        return put_remark(out, fault);
    }
    match refusal_of(last) {
        Some((at, code)) => put_named(alloc, out, input, at, code),
        None => Ok(()),
    }
}

fn put_stopped(out: &mut Vec<u8>, read_failed: bool) -> Result<(), AllocError>
    ensures { OnOk result (out.new.items ≡ out.old.items ++ stopped_said read_failed) }
{
    if read_failed {
        put_remark(out, b"the standard input can't be read")
    } else {
        put_remark(out, b"the standard output can't be written")
    }
}

fn put_said(alloc: Global, out: &mut Vec<u8>, end: &End) -> Result<(), AllocError>
    ensures { OnOk result (out.new.items ≡ out.old.items ++ said end.now) }
{
    match end.status {
        STOPPED => put_stopped(out, end.read_failed),
        REFUSED => put_refused(alloc, out, end.last, end.input),
        USAGE => put_words(out, end.word, end.name),
        _ => Ok(()),
    }
}

// Whether a network was answered, by a word that asks for its stable assignments or its dispute wheels.
fn answers_network(end: &End) -> bool
    ensures { result ≡ answers_network end.now }
{
    match end.status {
        REFUSED | USAGE | MEMORY | STOPPED => false,
        _ => same(end.word, b"stable") || same(end.word, b"safe"),
    }
}

/// The words on how a run ended: what a refusal means, how an input is given, or what failed; of a network that `stable`
/// or `safe` answered, which rules are for nothing and which of their paths can never come; else no word if it was
/// done. It is refused only for want of memory.
pub fn said(alloc: Global, end: &End) -> Result<Vec<u8>, AllocError>
    ensures { IfOk result (λ text. IsSaid end.now text.items) }
{
    if answers_network(end) {
        return input_warnings(alloc, end.input);
    }
    let mut text = Vec::new(alloc);
    put_said(alloc, &mut text, end)?;
    Ok(text)
}
