//! Lines of a file of rows, and the octets that they spell.

use std::alloc::{AllocError, Global};
use thiserror::Error;

/// A line of a file.
#[derive(Clone, Copy)]
pub struct RowLine<'a> {
    /// Its number, from 1.
    pub number: usize,
    /// Its text without its end.
    pub text: &'a str,
}

/// Why a file of rows could not be read.
#[derive(Debug, Drop, Error)]
pub enum RowError {
    /// A line is no row where it stands.
    #[error("line {line} is no row")]
    NoRow { line: usize },
    /// A growth was refused.
    #[error("memory")]
    Memory(#[from(alloc)] AllocError),
}

impl RowLine<'_> {
    /// That the line is no row where it stands.
    pub fn is_no_row(&self) -> RowError {
        RowError::NoRow { line: self.number }
    }

    /// Whether the line says nothing where it may be left out.
    pub fn says_nothing(&self) -> bool {
        self.text.is_empty() || self.text.starts_with("#")
    }
}

/// The lines of a text.
pub fn lines_of(alloc: Global, text: &str) -> Result<Vec<RowLine<'_>>, AllocError> {
    let mut lines = Vec::new(alloc);
    for (before, text) in text.lines().enumerate() {
        let number = before.saturating_add(1);
        lines.push(RowLine { number, text })?;
    }
    Ok(lines)
}

/// The lines without those at their end that say nothing.
pub fn trimmed<'a, 'b>(lines: &'b [RowLine<'a>]) -> &'b [RowLine<'a>] {
    let last = lines.iter().rposition(|line| !line.says_nothing());
    let count = last.map_or(0, |last| last.saturating_add(1));
    let (said, _) = lines.split_at(count.min(lines.len()));
    said
}

// What stands open before the next octet of a line.
#[derive(Clone, Copy)]
enum Open {
    // Nothing.
    Nothing,
    // A backslash.
    Escape,
    // `\x`.
    High,
    // `\x` and a hex digit, which is this.
    Low(u8),
}

// What a hex digit is.
fn digit_of(octet: u8) -> Option<u8> {
    match octet {
        b'0'..=b'9' => Some(octet - b'0'),
        b'a'..=b'f' => Some(octet - b'a' + 10),
        _ => None,
    }
}

// Appends what the next octet of a line spells, and answers what stands open behind it, where it may stand
// there.
fn push_octet(out: &mut Vec<u8>, open: Open, octet: u8) -> Result<Option<Open>, AllocError> {
    match (open, octet) {
        (Open::Nothing, b'\\') => return Ok(Some(Open::Escape)),
        (Open::Escape, b'x') => return Ok(Some(Open::High)),
        (Open::Nothing, _) | (Open::Escape, b'\\') => out.push(octet)?,
        (Open::Escape, _) => return Ok(None),
        (Open::High, _) => return Ok(digit_of(octet).map(Open::Low)),
        (Open::Low(high), _) => match digit_of(octet) {
            Some(low) => out.push((high << 4) | low)?,
            None => return Ok(None),
        },
    }
    Ok(Some(Open::Nothing))
}

/// Appends what a line spells, with its end where no backslash stands for it.
pub fn push_line(out: &mut Vec<u8>, line: &RowLine<'_>) -> Result<(), RowError> {
    let mut open = Open::Nothing;
    for octet in line.text.bytes() {
        match push_octet(out, open, octet)? {
            Some(next) => open = next,
            None => return Err(line.is_no_row()),
        }
    }
    match open {
        Open::Nothing => Ok(out.push(b'\n')?),
        Open::Escape => Ok(()),
        Open::High | Open::Low(_) => Err(line.is_no_row()),
    }
}

/// Appends what lines spell.
pub fn push_lines(out: &mut Vec<u8>, lines: &[RowLine<'_>]) -> Result<(), RowError> {
    for line in lines {
        push_line(out, line)?;
    }
    Ok(())
}
