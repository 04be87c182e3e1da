//! Streams of BGP messages, as hex digits.

use crate::dice::Dice;
use std::alloc::{AllocError, Global};

/// What messages a stream has.
#[derive(Clone, Copy)]
pub enum Kind {
    /// UPDATEs of many prefixes with one path, as in the dump of a table.
    Table,
    /// UPDATEs of a prefix or two, with KEEPALIVEs between them, as a session has them.
    Session,
    /// UPDATEs with an attribute of each code that RFC 4271 doesn't name, the codes rising, falling or mixed.
    Unknown,
}

// The attributes ORIGIN, AS_PATH and NEXT_HOP.
fn push_given(body: &mut Vec<u8>, dice: &mut Dice, numbers: u8) -> Result<(), AllocError> {
    body.extend_from_slice(&[0x40, 1, 1, 0])?;
    let octets = numbers.wrapping_mul(2).wrapping_add(2);
    body.extend_from_slice(&[0x40, 2, octets, 2, numbers])?;
    for _ in 0..numbers {
        let [low, high, ..] = dice.below(65_000).wrapping_add(1).to_le_bytes();
        body.extend_from_slice(&[high, low])?;
    }
    let [third, ..] = dice.octets();
    body.extend_from_slice(&[0x40, 3, 4, 10, 0, third, 1])
}

// Appends a prefix of 24 bits, which has four octets.
fn push_prefix(to: &mut Vec<u8>, dice: &mut Dice) -> Result<(), AllocError> {
    let [first, second, third, _] = dice.octets();
    to.extend_from_slice(&[24, (first % 223).wrapping_add(1), second, third])
}

// Appends two octets that say how long something is, of at most 65535.
fn push_length(to: &mut Vec<u8>, octets: usize) -> Result<(), AllocError> {
    let [low, high, ..] = octets.min(65_535).to_le_bytes();
    to.extend_from_slice(&[high, low])
}

// Appends the header of a message of this type, whose body has so many octets.
fn push_header(stream: &mut Vec<u8>, kind: u8, body: usize) -> Result<(), AllocError> {
    stream.extend_from_slice(&[0xff; 16])?;
    push_length(stream, body.saturating_add(19))?;
    stream.push(kind)?;
    Ok(())
}

// Appends an UPDATE of these attributes and so many prefixes.
fn push_update(
    stream: &mut Vec<u8>,
    dice: &mut Dice,
    attrs: &[u8],
    prefixes: u32,
) -> Result<(), AllocError> {
    let octets = prefixes.saturating_mul(4) as usize;
    push_header(
        stream,
        2,
        attrs.len().saturating_add(octets).saturating_add(4),
    )?;
    stream.extend_from_slice(&[0, 0])?;
    push_length(stream, attrs.len())?;
    stream.extend_from_slice(attrs)?;
    for _ in 0..prefixes {
        push_prefix(stream, dice)?;
    }
    Ok(())
}

// The codes 11 to 255, in the order of the message of this number.
fn push_unknown(attrs: &mut Vec<u8>, dice: &mut Dice, number: u32) -> Result<(), AllocError> {
    let [turn, value, ..] = dice.octets();
    for step in 0u8..=255 {
        let code = match number % 3 {
            0 => step,
            1 => 255u8.wrapping_sub(step),
            _ => step.wrapping_mul(77).wrapping_add(turn),
        };
        if code > 10 {
            attrs.extend_from_slice(&[0xc0, code, 1, value])?;
        }
    }
    Ok(())
}

fn push_table(stream: &mut Vec<u8>, alloc: Global, dice: &mut Dice) -> Result<(), AllocError> {
    let [numbers, ..] = dice.octets();
    let numbers = numbers % 6;
    let mut attrs = Vec::new(alloc);
    push_given(&mut attrs, dice, numbers.wrapping_add(1))?;
    let prefixes = dice.below(850).wrapping_add(50);
    push_update(stream, dice, attrs.as_slice(), prefixes)
}

fn push_session(stream: &mut Vec<u8>, alloc: Global, dice: &mut Dice) -> Result<(), AllocError> {
    let [numbers, ..] = dice.octets();
    let numbers = numbers % 6;
    let mut attrs = Vec::new(alloc);
    push_given(&mut attrs, dice, numbers.wrapping_add(1))?;
    let [metric, community, ..] = dice.octets();
    attrs.extend_from_slice(&[0x80, 4, 4, 0, 0, metric, 0])?;
    attrs.extend_from_slice(&[0xc0, 8, 8, 1, 2, 3, 4, 5, 6, 7, community])?;
    let prefixes = dice.below(2).wrapping_add(1);
    push_update(stream, dice, attrs.as_slice(), prefixes)?;
    if dice.below(4) == 0 {
        push_header(stream, 4, 0)?;
    }
    Ok(())
}

fn push_hostile(
    stream: &mut Vec<u8>,
    alloc: Global,
    dice: &mut Dice,
    number: u32,
) -> Result<(), AllocError> {
    let mut attrs = Vec::new(alloc);
    push_given(&mut attrs, dice, 2)?;
    push_unknown(&mut attrs, dice, number)?;
    push_update(stream, dice, attrs.as_slice(), 1)
}

/// A stream of so many messages of this kind.
pub fn stream(
    alloc: Global,
    dice: &mut Dice,
    kind: Kind,
    count: u32,
) -> Result<String, AllocError> {
    let mut octets = Vec::new(alloc);
    for number in 0..count {
        match kind {
            Kind::Table => push_table(&mut octets, alloc, dice)?,
            Kind::Session => push_session(&mut octets, alloc, dice)?,
            Kind::Unknown => push_hostile(&mut octets, alloc, dice, number)?,
        }
    }
    hex::encode(alloc, octets.as_slice())
}

/// A stream with a line end behind each 64 digits.
pub fn lines_of(alloc: Global, stream: &str) -> Result<Vec<u8>, AllocError> {
    let mut text = Vec::new(alloc);
    for line in stream.as_bytes().chunks(64) {
        text.extend_from_slice(line)?;
        text.push(b'\n')?;
    }
    Ok(text)
}
