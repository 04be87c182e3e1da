//! Hex digits as octets, many at a time and piece by piece.
//!
//! The definition is that of the crate `hex`, which reads what is left behind blocks of 32 digits; a block is read by
//! lanes.

ghost use Rattle.std.specs.Prelude.{◌≡◌, ℕ, List, ◌+◌, ◌++◌, ◌*◌, ◌%◌, ◌<◌, ◌≤◌, nat_lt, length, take, map, vec_len, slice_index, unwrap_or, IfOk, OnOk, IsErr, ◌∷◌, [], MatchOption, Ok, Some, None, true};
ghost use Rattle.std.specs.List.{list_all};
ghost use Rattle.hex.specs.Hex.{decode_of, decode_pairs, hex_digit_value, is_hex_digit};
ghost use Rattle.text_engines.specs.Digits.{Adds, HasRead, without_blanks};

use crate::blanks::pack;
use std::alloc::{AllocError, Global};
use std::simd::prelude::*;

/// A text in hex that is read piece by piece.
#[derive(Debug, Drop)]
pub struct Digits {
    /// The octets of the whole pairs that were not taken away, as long as all were digits.
    pub octets: Vec<u8>,
    /// A digit that waits for the second of its pair.
    pub half: Option<u8>,
    /// Whether all that came were digits.
    pub are_hex: bool,
}

// The values of the digits of a block, or 255 for what is no digit.
#[inline(always)]
fn values_of(digits: &[u8; 32]) -> [u8; 32]
    ensures { result ≡ map (λ digit. unwrap_or (hex_digit_value digit) 255) digits.now }
{
    lanes_of(u8x32::from_array(*digits)).to_array()
}

// Whether the values of a block are all below 16, as those of digits are.
#[inline(always)]
fn are_small(values: &[u8; 32]) -> bool
    ensures { result ≡ list_all (λ value. nat_lt value 16) values.now }
{
    are_values(u8x32::from_array(*values))
}

// The octets of a block, each of two values.
#[inline(always)]
fn pairs_of(values: &[u8; 32]) -> [u8; 16]
    ensures { (i : ℕ) → i < 16
        → slice_index result i ≡ slice_index values.now (2 * i) % 16 * 16 + slice_index values.now (2 * i + 1) % 16 }
{
    pair_lanes(u8x32::from_array(*values)).to_array()
}

#[inline(always)]
fn lanes_of(digits: u8x32) -> u8x32
    ensures { result ≡ map (λ digit. unwrap_or (hex_digit_value digit) 255) digits }
{
    let numbers = digits - u8x32::splat(b'0');
    let letters = (digits | u8x32::splat(0x20)) - u8x32::splat(b'a');
    let others = letters
        .simd_lt(u8x32::splat(6))
        .select(letters + u8x32::splat(10), u8x32::splat(255));
    numbers.simd_lt(u8x32::splat(10)).select(numbers, others)
}

#[inline(always)]
fn are_values(values: u8x32) -> bool
    ensures { result ≡ list_all (λ value. nat_lt value 16) values }
{
    values.simd_ge(u8x32::splat(16)).to_bitmask() == 0
}

#[inline(always)]
fn pair_lanes(values: u8x32) -> u8x16
    ensures { (i : ℕ) → i < 16
        → slice_index result i ≡ slice_index values (2 * i) % 16 * 16 + slice_index values (2 * i + 1) % 16 }
{
    let few = values & u8x32::splat(15);
    let (high, low) = few.extract::<0, 16>().deinterleave(few.extract::<16, 16>());
    high * u8x16::splat(16) + low
}

// Writes the octets of pairs of digits, and answers whether all were digits.
fn write_octets(digits: &[u8], octets: &mut [u8]) -> bool
    requires { length digits.now ≡ 2 * length octets.old }
    ensures are_digits { result ≡ list_all is_hex_digit digits.now }
    ensures octets { result ≡ true → decode_pairs 0 digits.now ≡ Ok octets.new }
{
    let mut are_hex = true;
    let mut i = 0usize;
    'pieces: while let Some(block) = digits.split_at(2 * i).1.first_chunk::<32>() {
        let values = values_of(block);
        are_hex = are_hex & are_small(&values);
        octets[i..i + 16].copy_from_slice(&pairs_of(&values));
        i += 16;
    }
    let (_, last) = digits.split_at(2 * i);
    let (_, room) = octets.split_at_mut(i);
    are_hex & hex::decode_to_slice(last, room).is_ok()
}

// Appends the octets of pairs of digits, and answers whether all were digits.
fn append_octets(octets: &mut Vec<u8>, digits: &[u8]) -> Result<bool, AllocError>
    requires { length digits.now % 2 ≡ 0 }
    ensures { IfOk result (λ are_hex. Adds digits.now octets.old.items octets.new.items are_hex) }
{
    let start = octets.len();
    octets.resize(start + digits.len() / 2, 0)?;
    let (_, fresh) = octets.as_mut_slice().split_at_mut(start);
    Ok(write_octets(digits, fresh))
}

impl Digits {
    /// No digit yet.
    pub fn new(alloc: Global) -> Digits
        ensures { HasRead [] result [] }
    {
        Digits {
            octets: Vec::new(alloc),
            half: None,
            are_hex: true,
        }
    }

    // Reads the digit that a pair waits for.
    fn complete(&mut self, high: u8, low: u8) -> Result<(), AllocError>
        requires { self.old.half ≡ Some high }
        ensures whole { OnOk result (self.new.half ≡ None) }
        ensures read { OnOk result
            ((taken before : List ℕ) → HasRead taken self.old before → HasRead taken self.new (before ++ low ∷ [])) }
    {
        self.are_hex = append_octets(&mut self.octets, &[high, low])? & self.are_hex;
        self.half = None;
        Ok(())
    }

    // Reads digits where no pair waits.
    fn append(&mut self, digits: &[u8]) -> Result<(), AllocError>
        requires { self.old.half ≡ None }
        ensures { OnOk result
            ((taken before : List ℕ) → HasRead taken self.old before → HasRead taken self.new (before ++ digits.now)) }
    {
        let (pairs, last) = digits.split_at(digits.len() / 2 * 2);
        self.are_hex = append_octets(&mut self.octets, pairs)? & self.are_hex;
        self.half = match last {
            [digit, ..] => Some(*digit),
            [] => None,
        };
        Ok(())
    }

    // Reads digits behind those that came.
    fn extend(&mut self, digits: &[u8]) -> Result<(), AllocError>
        ensures { OnOk result
            ((taken before : List ℕ) → HasRead taken self.old before → HasRead taken self.new (before ++ digits.now)) }
    {
        match (self.half, digits) {
            (Some(high), [low, rest @ ..]) => {
                self.complete(high, *low)?;
                self.append(rest)
            }
            (Some(_), []) => Ok(()),
            (None, _) => self.append(digits),
        }
    }

    /// Reads a piece of the text, whose digits are moved to its front.
    pub fn feed(&mut self, text: &mut [u8]) -> Result<(), AllocError>
        ensures { OnOk result
            ((taken before : List ℕ) → HasRead taken self.old before
            → HasRead taken self.new (before ++ without_blanks text.old)) }
    {
        let kept = pack(text);
        if !self.are_hex {
            return Ok(());
        }
        let (digits, _) = text.split_at(kept);
        self.extend(digits)
    }

    /// Takes so many octets away from the front.
    pub fn drop_front(&mut self, count: usize)
        requires { count ≤ vec_len self.old.octets }
        ensures { (taken digits : List ℕ) → HasRead taken self.old digits
            → HasRead (taken ++ take count self.old.octets.items) self.new digits }
    {
        let left = self.octets.len() - count;
        self.octets.copy_within(count.., 0);
        self.octets.truncate(left);
    }

    /// The octets that the text stands for, without those that were taken away, where it stands for any.
    pub fn finish(self) -> Option<Vec<u8>>
        ensures { (taken digits : List ℕ) → HasRead taken self digits
            → MatchOption result (IsErr (decode_of digits)) (λ octets. decode_of digits ≡ Ok (taken ++ octets.items)) }
    {
        match self.half {
            None if self.are_hex => Some(self.octets),
            _ => None,
        }
    }
}
