//! Numbers in decimal digits, and paths of them: at a place of a text, and behind what a buffer has.

ghost use Rattle.std.specs.Prelude.{◌≡◌, ◌+◌, ◌*◌, ◌/◌, ◌%◌, ◌<◌, ◌≤◌, ◌∷◌, [], ◌++◌, length, take, map, decimal, OnOk, OnErr};
ghost use Rattle.std.specs.List.{join_with_byte};
ghost use Rattle.net_text.specs.Printing.{marked, numbers_text};

use crate::texts::{octet_row, write_mark, write_octet, write_text};
use bgp_codec::Asn;
use std::alloc::AllocError;

// The most octets that may change where a number is written.
const NUMBER_ROOM: usize = 12;

// The octets of a path without numbers.
const NONE_ROOM: usize = 4;

// Writes the last two digits of a number, as the row of a number from 100 to 199 has them.
fn write_last_two(text: &mut [u8], at: usize, number: u32) -> usize
    requires { at + 2 ≤ length text.old }
    ensures end { result ≡ at + 2 }
    ensures text { take result text.new ≡ take at text.old ++ (48 + number / 10 % 10) ∷ (48 + number % 10) ∷ [] }
{
    let [_, tens, ones, _] = octet_row((100 + number % 100) as u8);
    let at = write_mark(text, at, tens);
    write_mark(text, at, ones)
}

// Writes a number of which an octet holds all but the last two digits.
fn write_below_25600(text: &mut [u8], at: usize, number: u32) -> usize
    requires number { number < 25600 }
    requires room { at + 6 ≤ length text.old }
    ensures end { result ≤ at + 5 }
    ensures text { take result text.new ≡ take at text.old ++ decimal number }
{
    if number < 256 {
        return write_octet(text, at, number as u8);
    }
    let at = write_octet(text, at, (number / 100) as u8);
    write_last_two(text, at, number)
}

// Writes a number of which an octet holds all but the last four digits.
fn write_below_2560000(text: &mut [u8], at: usize, number: u32) -> usize
    requires number { number < 2560000 }
    requires room { at + 8 ≤ length text.old }
    ensures end { result ≤ at + 7 }
    ensures text { take result text.new ≡ take at text.old ++ decimal number }
{
    if number < 25_600 {
        return write_below_25600(text, at, number);
    }
    let at = write_below_25600(text, at, number / 100);
    write_last_two(text, at, number)
}

/// Writes a number at a place in decimal digits, and answers the place behind it. Twelve octets may change.
pub fn write_decimal(text: &mut [u8], at: usize, number: u32) -> usize
    requires { at + 12 ≤ length text.old }
    ensures end { result ≤ at + 11 }
    ensures text { take result text.new ≡ take at text.old ++ decimal number }
{
    if number < 2_560_000 {
        return write_below_2560000(text, at, number);
    }
    let at = write_below_2560000(text, at, number / 10_000);
    let at = write_last_two(text, at, number / 100);
    write_last_two(text, at, number)
}

// Writes numbers behind others, a mark before each, and answers the place behind them.
fn write_marked(text: &mut [u8], start: usize, numbers: &[Asn], mark: u8) -> usize
    requires { start + 13 * length numbers.now ≤ length text.old }
    ensures end { result ≤ start + 12 * length numbers.now }
    ensures text { take result text.new ≡ take start text.old ++ marked mark numbers.now }
{
    let mut at = start;
    for number in numbers {
        at = write_mark(text, at, mark);
        at = write_decimal(text, at, *number);
    }
    at
}

// Writes numbers with a mark between them, and answers the place behind them.
fn write_joined(text: &mut [u8], start: usize, numbers: &[Asn], mark: u8) -> usize
    requires { start + 13 * length numbers.now ≤ length text.old }
    ensures end { result ≤ start + 12 * length numbers.now }
    ensures text { take result text.new ≡ take start text.old ++ join_with_byte mark (map decimal numbers.now) }
{
    match numbers {
        [] => start,
        [first, rest @ ..] => {
            let at = write_decimal(text, start, *first);
            write_marked(text, at, rest, mark)
        }
    }
}

/// Writes a path at a place, and answers the place behind it: its numbers with dashes between them, or `none`. Thirteen
/// octets may change for each number, and four besides.
pub fn write_path(text: &mut [u8], start: usize, numbers: &[Asn]) -> usize
    requires { start + (13 * length numbers.now + 4) ≤ length text.old }
    ensures end { result ≤ start + (12 * length numbers.now + 4) }
    ensures text { take result text.new ≡ take start text.old ++ numbers_text numbers.now }
{
    if numbers.is_empty() {
        write_text(text, start, b"none")
    } else {
        write_joined(text, start, numbers, b'-')
    }
}

/// Appends a number in decimal digits. A refused growth changes nothing.
pub fn put_decimal(out: &mut Vec<u8>, number: u32) -> Result<(), AllocError>
    ensures ok { OnOk result (out.new.items ≡ out.old.items ++ decimal number) }
    ensures err { OnErr result (out.new.items ≡ out.old.items) }
{
    let at = out.len();
    out.resize(at + NUMBER_ROOM, 0)?;
    let end = write_decimal(out.as_mut_slice(), at, number);
    out.truncate(end);
    Ok(())
}

/// Appends numbers with a mark between them. It grows once, by the most that they can take.
pub fn put_joined(out: &mut Vec<u8>, numbers: &[Asn], mark: u8) -> Result<(), AllocError>
    ensures ok { OnOk result (out.new.items ≡ out.old.items ++ join_with_byte mark (map decimal numbers.now)) }
    ensures err { OnErr result (out.new.items ≡ out.old.items) }
{
    let start = out.len();
    let room = numbers.len().saturating_mul(NUMBER_ROOM + 1);
    out.resize(start.saturating_add(room), 0)?;
    let end = write_joined(out.as_mut_slice(), start, numbers, mark);
    out.truncate(end);
    Ok(())
}

/// Appends numbers, a mark before each. It grows once, by the most that they can take.
pub fn put_marked(out: &mut Vec<u8>, numbers: &[Asn], mark: u8) -> Result<(), AllocError>
    ensures ok { OnOk result (out.new.items ≡ out.old.items ++ marked mark numbers.now) }
    ensures err { OnErr result (out.new.items ≡ out.old.items) }
{
    let start = out.len();
    let room = numbers.len().saturating_mul(NUMBER_ROOM + 1);
    out.resize(start.saturating_add(room), 0)?;
    let end = write_marked(out.as_mut_slice(), start, numbers, mark);
    out.truncate(end);
    Ok(())
}

/// Appends a path, `none` if it is empty. It grows once, by the most that it can take.
pub fn put_numbers(out: &mut Vec<u8>, numbers: &[Asn]) -> Result<(), AllocError>
    ensures ok { OnOk result (out.new.items ≡ out.old.items ++ numbers_text numbers.now) }
    ensures err { OnErr result (out.new.items ≡ out.old.items) }
{
    let start = out.len();
    let room = numbers
        .len()
        .saturating_mul(NUMBER_ROOM + 1)
        .saturating_add(NONE_ROOM);
    out.resize(start.saturating_add(room), 0)?;
    let end = write_path(out.as_mut_slice(), start, numbers);
    out.truncate(end);
    Ok(())
}
