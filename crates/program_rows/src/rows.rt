//! The cases of a file of rows.

use crate::lines::{RowError, RowLine, lines_of, push_line, push_lines, trimmed};
use std::alloc::Global;

/// What may be written, and the status.
#[derive(Drop)]
pub struct Answer {
    /// The status that the program ends with.
    pub status: u8,
    /// What is written.
    pub text: Vec<u8>,
    /// Whether more follows it.
    pub goes_on: bool,
    /// What is said on the standard error, where it is looked at.
    pub said: Option<Vec<u8>>,
}

/// What is read, and what may be written for it.
#[derive(Drop)]
pub struct Case<'a> {
    /// What the case shows.
    pub title: &'a str,
    /// The words behind the program's name.
    pub words: Vec<&'a str>,
    /// What is read.
    pub input: Vec<u8>,
    /// One of these comes.
    pub answers: Vec<Answer>,
}

// Whether a case begins with this line, or what stands in front of inputs.
fn is_head(line: &RowLine<'_>) -> bool {
    line.text.starts_with("== ") || line.text.starts_with("++ ")
}

fn is_status(line: &RowLine<'_>) -> bool {
    line.text.starts_with("-- ")
}

// Whether a line is said on the standard error.
fn is_said(line: &RowLine<'_>) -> bool {
    line.text.starts_with("!!")
}

// What lines that are said spell, each without its mark; none where there is no line.
fn read_said(alloc: Global, lines: &[RowLine<'_>]) -> Result<Option<Vec<u8>>, RowError> {
    if lines.is_empty() {
        return Ok(None);
    }
    let mut said = Vec::new(alloc);
    for line in lines {
        match line.text.strip_prefix("!! ") {
            Some(text) => push_line(
                &mut said,
                &RowLine {
                    number: line.number,
                    text,
                },
            )?,
            None if line.text == "!!" => {}
            None => return Err(line.is_no_row()),
        }
    }
    Ok(Some(said))
}

// What stands behind a status.
fn read_answer(
    alloc: Global,
    status: &RowLine<'_>,
    lines: &[RowLine<'_>],
) -> Result<Answer, RowError> {
    let number = status.text.strip_prefix("-- ").unwrap_or("").parse::<u8>();
    let Ok(number) = number else {
        return Err(status.is_no_row());
    };
    let lines = trimmed(lines);
    let count = lines.iter().position(|line| is_said(line));
    let count = count.unwrap_or(lines.len());
    let (mut wanted, said) = lines.split_at(count.min(lines.len()));
    let mut answer = Answer {
        status: number,
        text: Vec::new(alloc),
        goes_on: false,
        said: read_said(alloc, said)?,
    };
    if let [front @ .., last] = wanted
        && last.text == "..."
    {
        answer.goes_on = true;
        wanted = front;
    }
    push_lines(&mut answer.text, wanted)?;
    Ok(answer)
}

// The words of a line of words.
fn read_words<'a>(alloc: Global, line: &RowLine<'a>) -> Result<Vec<&'a str>, RowError> {
    match line.text.strip_prefix("$") {
        Some(words) => Ok(words.split_whitespace().collect(alloc)?),
        None => Err(line.is_no_row()),
    }
}

// What the lines of a `++` spell.
fn read_front(alloc: Global, lines: &[RowLine<'_>]) -> Result<Vec<u8>, RowError> {
    let mut front = Vec::new(alloc);
    push_lines(&mut front, trimmed(lines))?;
    Ok(front)
}

// The case that begins with this line, behind which these stand. Its input has others in front.
fn read_case<'a>(
    alloc: Global,
    front: &[u8],
    head: &RowLine<'a>,
    lines: &[RowLine<'a>],
) -> Result<Case<'a>, RowError> {
    let [words, lines @ ..] = lines else {
        return Err(head.is_no_row());
    };
    let mut case = Case {
        title: head.text.strip_prefix("== ").unwrap_or(head.text),
        words: read_words(alloc, words)?,
        input: front.to_vec(alloc)?,
        answers: Vec::new(alloc),
    };
    for part in lines.chunk_by(|_, line| !is_status(line)) {
        match part {
            [status, wanted @ ..] if is_status(status) => {
                case.answers.push(read_answer(alloc, status, wanted)?)?;
            }
            input => push_lines(&mut case.input, input)?,
        }
    }
    if case.answers.is_empty() {
        return Err(head.is_no_row());
    }
    Ok(case)
}

// Refuses the first line that says something, of those in front of all cases.
fn expect_nothing(lines: &[RowLine<'_>]) -> Result<(), RowError> {
    match lines.iter().find(|line| !line.says_nothing()) {
        Some(line) => Err(line.is_no_row()),
        None => Ok(()),
    }
}

/// The cases of a text.
pub fn read_rows(alloc: Global, text: &str) -> Result<Vec<Case<'_>>, RowError> {
    let lines = lines_of(alloc, text)?;
    let mut cases = Vec::new(alloc);
    let mut front = Vec::new(alloc);
    for part in lines.chunk_by(|_, line| !is_head(line)) {
        match part {
            [head, rest @ ..] if head.text.starts_with("== ") => {
                cases.push(read_case(alloc, front.as_slice(), head, rest)?)?;
            }
            [head, rest @ ..] if is_head(head) => front = read_front(alloc, rest)?,
            before => expect_nothing(before)?,
        }
    }
    Ok(cases)
}
