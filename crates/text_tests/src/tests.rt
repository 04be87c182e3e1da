//! What no contract says: that good texts are read where there is memory, and what the definitions
//! say of single texts.
//!
//! Each helper ensures nothing and answers a code, or whether a text is refused as is wanted, so that a
//! network that was read is not carried along to the next question.

use net_text::{Code, Refused, read_network};
use std::alloc::{AllocError, Global};

mod hex_inputs;
mod limits;
mod lines;
mod networks;
mod orders;
mod reports;
mod stable;
mod streams;

// What a network text is refused for.
fn refusal(alloc: Global, text: &[u8]) -> Option<Refused> {
    match read_network(alloc, text) {
        Ok(_) => None,
        Err(refused) => Some(refused),
    }
}

// Whether a network text is refused as is wanted, or read where nothing is.
fn is_refused(alloc: Global, text: &[u8], wanted: Option<Refused>) -> bool {
    refusal(alloc, text) == wanted
}

// Whether this is the code that a network text is refused for, in whatever line.
fn has_code(alloc: Global, text: &[u8], wanted: Option<Code>) -> bool {
    match refusal(alloc, text) {
        Some(Refused { line: _, code }) => wanted == Some(code),
        None => wanted.is_none(),
    }
}

// A text with a line more behind it.
fn with_line(alloc: Global, text: &[u8], line: &[u8]) -> Result<Vec<u8>, AllocError> {
    let mut longer = text.to_vec(alloc)?;
    longer.extend_from_slice(line)?;
    Ok(longer)
}

// Whether this is the code that a text with a line more behind it is refused for.
fn has_code_behind(
    alloc: Global,
    text: &[u8],
    line: &[u8],
    wanted: Option<Code>,
) -> Result<bool, AllocError> {
    let longer = with_line(alloc, text, line)?;
    Ok(has_code(alloc, longer.as_slice(), wanted))
}
