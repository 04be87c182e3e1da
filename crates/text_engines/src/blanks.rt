//! Blanks taken out of a text, many octets at a time.

ghost use Rattle.std.specs.Prelude.{◌≡◌, ◌≤◌, nat_le, length, take, map, filter, false, not};
ghost use Rattle.std.specs.List.{All};
ghost use Rattle.std.specs.Simd.Lanes.{mask_l};
ghost use Rattle.text_engines.specs.Decoding.{is_blank};

use std::simd::prelude::*;

// How many octets are looked at together.
const PIECE: usize = 64;

// How many low octets a piece may have whose runs are moved as one.
const FEW: u32 = 4;

fn is_blank(octet: u8) -> bool
    ensures { result ≡ is_blank octet }
{
    octet == b' ' || octet == b'\t' || octet == b'\r' || octet == b'\n'
}

// Which of the octets are at most a space, as blanks are, the first in the lowest bit.
#[inline(always)]
fn low_ones(octets: u8x64) -> u64
    ensures { result ≡ mask_l (map (λ octet. nat_le octet 32) octets) }
{
    octets.simd_le(u8x64::splat(b' ')).to_bitmask()
}

// How many octets of a piece stand before its first low one, or 0 where more than a few are low.
#[inline(always)]
fn run_of(piece: &[u8; PIECE]) -> usize
    ensures bound { result ≤ PIECE }
    ensures clean { All (λ octet. is_blank octet ≡ false) (take result piece.now) }
{
    let low = low_ones(u8x64::from_array(*piece));
    if low == 0 {
        PIECE
    } else if low.count_ones() > FEW {
        0
    } else {
        low.trailing_zeros() as usize
    }
}

// How many octets in front are moved as one: at most a piece, and no blank among them. None where less than a piece is
// left.
#[inline(always)]
fn run_in_front(octets: &[u8]) -> usize
    ensures bound { result ≤ length octets.now }
    ensures clean { All (λ octet. is_blank octet ≡ false) (take result octets.now) }
{
    match octets.first_chunk::<PIECE>() {
        Some(piece) => run_of(piece),
        None => 0,
    }
}

/// Moves the octets that are no blanks to the front, and answers how many they are.
pub fn pack(text: &mut [u8]) -> usize
    ensures bound { result ≤ length text.old }
    ensures kept { take result text.new ≡ filter (λ octet. not (is_blank octet)) text.old }
    ensures len { length text.new ≡ length text.old }
{
    let mut kept = 0usize;
    let mut at = 0usize;
    'runs: while at < text.len() {
        let run = run_in_front(text.split_at(at).1);
        if run > 0 {
            if kept < at {
                text.copy_within(at..at + run, kept);
            }
            kept += run;
            at += run;
            'blanks: while at < text.len() && is_blank(text[at]) {
                at += 1;
            }
        } else {
            let end = text.len().min(at.saturating_add(PIECE));
            'octets: while at < end {
                let octet = text[at];
                if !is_blank(octet) {
                    text[kept] = octet;
                    kept += 1;
                }
                at += 1;
            }
        }
    }
    kept
}
