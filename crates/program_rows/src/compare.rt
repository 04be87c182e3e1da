//! One case: what comes, and whether it is what is wanted.

use crate::rows::{Answer, Case};
use command_line::{run_with, status_of};
use error_words::{End, Ending, Kept, bound_of, said};
use std::alloc::{AllocError, Global};
use std::io;
use std::io::Write;
use std::sync::Wait;
use std::thread::Threads;
use text_engines::Watched;

// What the program does for a case.
#[derive(Drop)]
struct Came {
    // What it writes.
    text: Vec<u8>,
    // The status that it ends with.
    status: u8,
    // What it says on the standard error.
    said: Vec<u8>,
}

// The first of the words and the last, where there are several.
fn ends_of<'a>(words: &[&'a str]) -> (&'a [u8], &'a [u8]) {
    match words {
        [] => (b"", b""),
        [word] => (word.as_bytes(), b""),
        [word, .., name] => (word.as_bytes(), name.as_bytes()),
    }
}

// Runs the program on a case, as its `main` does.
fn run_case<R>(rt: &R, alloc: Global, case: &Case<'_>) -> Result<Came, AllocError>
where
    R: Threads + Wait + Sync,
{
    let words = case.words.as_slice();
    let (word, name) = ends_of(words);
    let mut reader = Kept::new(alloc, Watched::new(case.input.as_slice()), bound_of(word));
    let mut writer = Ending::new(Watched::new(Vec::new(alloc)));
    let ended = run_with(rt, alloc, words, &mut reader, &mut writer);
    let end = End {
        word,
        name,
        status: status_of(ended),
        read_failed: reader.inner().has_failed(),
        last: writer.line(),
        input: reader.text(),
    };
    let status = end.status;
    let said = said(alloc, &end)?;
    Ok(Came {
        text: writer.into_inner().into_inner(),
        status,
        said,
    })
}

// Whether what came is the answer.
fn is_answer(answer: &Answer, came: &Came) -> bool {
    let is_text = match came.text.strip_prefix(answer.text.as_slice()) {
        Some(rest) => answer.goes_on != rest.is_empty(),
        None => false,
    };
    let is_said = match &answer.said {
        Some(said) => said.as_slice() == came.said.as_slice(),
        None => true,
    };
    is_text && is_said && came.status == answer.status
}

// Prints a text below a line that says what it is.
fn print_text(rt: &impl Print, said: &str, text: &[u8], status: u8) -> io::Result<()> {
    println!(rt; "{said}, status {status}:")?;
    io::writer(rt).write_all(text)?;
    println!(rt; "")
}

// Prints what was wanted of a case, and what came.
fn print_difference(rt: &impl Print, case: &Case<'_>, came: &Came) -> io::Result<()> {
    let title = case.title;
    println!(rt; "== {title}")?;
    for answer in &case.answers {
        print_text(rt, "wanted", answer.text.as_slice(), answer.status)?;
        if let Some(said) = &answer.said {
            print_text(rt, "said", said.as_slice(), answer.status)?;
        }
    }
    print_text(rt, "came", came.text.as_slice(), came.status)?;
    print_text(rt, "said", came.said.as_slice(), came.status)
}

/// Whether the program answers a case as is wanted; where it does not, what came is printed.
pub fn is_met<R>(rt: &R, alloc: Global, case: &Case<'_>) -> io::Result<bool>
where
    R: Print + Threads + Wait + Sync,
{
    let came = run_case(rt, alloc, case)?;
    let is_met = case.answers.iter().any(|answer| is_answer(answer, &came));
    if !is_met {
        print_difference(rt, case, &came)?;
    }
    Ok(is_met)
}
