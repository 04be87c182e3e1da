//! `bgpnet`: decodes BGP-4 messages, says whether paths are a stable assignment, lists all that are, looks for dispute
//! wheels, plays schedules of a network, and runs a network in threads.
//!
//! The program reads its words and standard input and nothing else, and writes standard output. `main` hands them to
//! [`command_line::run_with`], and ends with its status. On the standard error it says in words what a refusal means,
//! and what failed, as [`error_words::said`] answers.
//!
//! Its contract is that of the task that the words ask for. `command_line::run_task` (`TaskPrints`) reads, answers and
//! writes for `decode`, `check`, `stable`, `safe`, `play`, `cut`, `why` and `trace`; `command_line::run_thread_task`
//! (`ThreadsPrint`) does for `run` and `record`. Both cite the definitions in the `specs/` of the engines.
#![tactic(auto)]

use command_line::{run_with, status_of};
use error_words::{End, Ending, Kept, bound_of, said};
use std::alloc::Global;
use std::process::ExitCode;
use std::str::from_utf8;
use std::{env, io};
use text_engines::{IoStopped, Sink, Watched, status, want_of_memory, write_out};

// Why the words behind the program's name were not read.
#[derive(Clone, Copy)]
enum WordsError {
    Memory,
    NotText,
}

// The words behind the program's name.
fn words_of(rt: &HostRuntime) -> Result<Vec<String>, WordsError> {
    match env::args(rt) {
        Ok(args) => args
            .skip(1)
            .collect(rt.alloc())
            .map_err(|_| WordsError::Memory),
        Err(error) if error.kind() == io::ErrorKind::OutOfMemory => Err(WordsError::Memory),
        Err(_) => Err(WordsError::NotText),
    }
}

// The first of the words and the last, if there are any.
fn ends_of(words: &Result<Vec<String>, WordsError>) -> (&[u8], &[u8]) {
    let Ok(words) = words else {
        return (b"", b"");
    };
    match words.as_slice() {
        [] => (b"", b""),
        [word] => (word.as_bytes(), b""),
        [word, .., name] => (word.as_bytes(), name.as_bytes()),
    }
}

// The words, lent.
fn lent(alloc: Global, words: &Result<Vec<String>, WordsError>) -> Result<Vec<&str>, WordsError> {
    match words {
        Ok(words) => words
            .iter()
            .map(|word| word.as_str())
            .collect(alloc)
            .map_err(|_| WordsError::Memory),
        Err(error) => Err(*error),
    }
}

// Writes why the words were not read, and answers the status.
fn refuse<T: Sink>(writer: &mut T, error: WordsError) -> Result<u8, IoStopped> {
    match error {
        WordsError::Memory => want_of_memory(writer),
        WordsError::NotText => {
            write_out(writer, b"error: a word of the command line is no text\n")?;
            Ok(status::USAGE)
        }
    }
}

// Says on the standard error how a run ended. If that can't be written, or memory is refused, nobody is told.
fn say(rt: &HostRuntime, end: &End<'_>) {
    if let Ok(text) = said(rt.alloc(), end) {
        if let Ok(text) = from_utf8(text.as_slice()) {
            let _ = eprint!(rt; "{text}");
        }
    }
}

fn main(rt: HostRuntime) -> ExitCode {
    let alloc = rt.alloc();
    let words = words_of(&rt);
    let (word, name) = ends_of(&words);
    let mut reader = Kept::new(alloc, Watched::new(rt.stdin()), bound_of(word));
    let mut writer = Ending::new(Watched::new(io::writer(&rt)));
    let ended = match lent(alloc, &words) {
        Ok(words) => run_with(&rt, alloc, words.as_slice(), &mut reader, &mut writer),
        Err(error) => refuse(&mut writer, error),
    };
    let status = status_of(ended);
    let end = End {
        word,
        name,
        status,
        read_failed: reader.inner().has_failed(),
        last: writer.line(),
        input: reader.text(),
    };
    say(&rt, &end);
    ExitCode::from(status)
}
