//! `program_rows`: whether the program prints what is wanted for what it reads, by files of rows.
//!
//! Its words name the files. For each case of a file it runs [`command_line::run_with`], and compares what is
//! written and the status with what the case says. It prints each case that differs, with what was wanted and what
//! came, and a line for the file. Its status is 1 where a case differs, or a file can't be read or has a line that
//! is no row.
//!
//! A case is a title, the words behind the program's name, the input, the status and the output:
//!
//! ```text
//! == a KEEPALIVE
//! $ decode
//! ffffffff ffffffff ffffffff ffffffff 0013 04
//! -- 0
//! keepalive
//! ```
//!
//! - In an input or an output `\xHH` is the octet with these hex digits, and `\\` a backslash. A `\` at the end of a
//!   line says that no line end stands there.
//! - Where one of several outputs will do, each stands behind its own `-- STATUS`.
//! - A last line `...` of an output says that more follows, whatever it is.
//! - Lines `!! TEXT` behind an output are what is said on the standard error, and `!!` alone that nothing is; without
//!   them it is not looked at.
//! - A line `++ TITLE` and the lines behind it stand in front of the input of each case that follows, up to the next
//!   such line.
//! - Lines that are empty or begin with `#` say nothing at the start of a file, behind an output, and behind the
//!   lines of a `++`.
#![tactic(auto)]

mod compare;
mod lines;
mod rows;

use compare::is_met;
use lines::RowError;
use rows::read_rows;
use std::process::ExitCode;
use std::rt::Files;
use std::sync::Wait;
use std::thread::Threads;
use std::{env, fs, io};
use thiserror::Error;

// Why a file could not be gone through.
#[derive(Debug, Drop, Error)]
enum FileError {
    #[error("{0}")]
    Io(#[from] io::Error),
    #[error("{0}")]
    Row(#[from] RowError),
}

// How many cases of a file there are, and how many differ.
#[derive(Clone, Copy)]
struct Counts {
    cases: usize,
    different: usize,
}

// Compares each case of a file, and prints each that differs.
fn compare_cases<R>(rt: &R, name: &str) -> Result<Counts, FileError>
where
    R: AllocGlobal + Files + Print + Threads + Wait + Sync,
{
    let text = fs::read_to_string(rt, name)?;
    let cases = read_rows(rt.alloc(), text.as_str())?;
    let mut different = 0usize;
    for case in cases.iter() {
        if !is_met(rt, rt.alloc(), case)? {
            different = different.saturating_add(1);
        }
    }
    Ok(Counts {
        cases: cases.len(),
        different,
    })
}

// Prints what comes of a file, and answers whether no case of it differs.
fn compare_file<R>(rt: &R, name: &str) -> io::Result<bool>
where
    R: AllocGlobal + Files + Print + Threads + Wait + Sync,
{
    match compare_cases(rt, name) {
        Ok(Counts { cases, different }) => {
            println!(rt; "{name}: {cases} cases, {different} different")?;
            Ok(different == 0)
        }
        Err(error) => {
            println!(rt; "{name}: {error}")?;
            Ok(false)
        }
    }
}

// Prints what comes of each file that the words name, and answers whether no case differs.
fn compare_files<R>(rt: &R, names: &[String]) -> io::Result<bool>
where
    R: AllocGlobal + Files + Print + Threads + Wait + Sync,
{
    let mut all_met = true;
    for name in names {
        all_met = compare_file(rt, name.as_str())? && all_met;
    }
    Ok(all_met)
}

fn main(rt: HostRuntime) -> io::Result<ExitCode> {
    let names: Vec<String> = env::args(&rt)?.skip(1).collect(rt.alloc())?;
    if compare_files(&rt, names.as_slice())? {
        Ok(ExitCode::SUCCESS)
    } else {
        Ok(ExitCode::FAILURE)
    }
}
