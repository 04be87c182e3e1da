//! A table of prefixes.

ghost use Rattle.std.specs.Prelude.{◌≡◌, ◌<◌, ◌≤◌, ◌↔◌, ◌+◌, ◌==◌, ◌++◌, [], ◌∷◌, length, take, map, OnOk, OnErr, IsTrue, MatchOption};
ghost use Rattle.std.specs.Int.Bits.{bit_and};
ghost use Rattle.std.specs.List.{All, HoldsAt};
ghost use Rattle.std.specs.Simd.Lanes.{chunk, mask_l, zip2};
ghost use Rattle.prefix_lanes.specs.Best.{IsBest};
ghost use Rattle.prefix_lanes.specs.Bits.{IsCanonical};
ghost use Rattle.prefix_lanes.specs.Columns.{AreColumns, is_alike};
ghost use Rattle.prefix_lanes.specs.Covering.{IsLongest};
ghost use Rattle.prefix_lanes.specs.declared.cover_table.TheConstants.{CAPACITY};

use crate::mask::mask_word;
use crate::prefix::Prefix;
use std::alloc::Global;
use std::marker::Model;
use std::simd::prelude::*;
use thiserror::Error;

/// How many prefixes a table holds at most.
pub const CAPACITY: usize = 64;

/// Why a table did not take a prefix. The table is as it was.
#[derive(Debug, PartialEq, Eq, Drop, Error)]
pub enum CoverError {
    /// It holds as many as it can.
    #[error("the table is full")]
    TableFull,
}

/// Prefixes, in the order in which they were pushed. The table itself has room for [`CAPACITY`] of them.
#[derive(Debug, Drop)]
pub struct CoverTable {
    // The places past the count have a prefix that no call shows.
    places: [Prefix; CAPACITY],
    // The address and the mask of each, which lanes read.
    addrs: [u32; CAPACITY],
    masks: [u32; CAPACITY],
    count: usize,
}

impl Model for CoverTable {
    ghost use Rattle.std.specs.Prelude.{List, take, ◌≤◌};
    ghost use Rattle.prefix_lanes.specs.Bits.{PrefixView};
    ghost use Rattle.prefix_lanes.specs.Columns.{AreColumns};
    ghost use Rattle.prefix_lanes.specs.declared.cover_table.TheConstants.{CAPACITY};

    ghost Value = { List PrefixView };

    ghost view = { λ a. take a.count a.places };

    ghost invariant = { λ a. (a.count ≤ CAPACITY) × AreColumns a.places a.addrs a.masks };
}

impl CoverTable {
    /// A table with no prefix. Takes no memory.
    pub fn new(_alloc: Global) -> CoverTable
        ensures { result ≡ [] }
    {
        CoverTable {
            places: [Prefix::new(0, 0).unwrap(); CAPACITY],
            addrs: [0; CAPACITY],
            masks: [0; CAPACITY],
            count: 0,
        }
    }

    /// The prefixes, the first pushed first.
    pub fn as_slice(&self) -> &[Prefix]
        ensures value { result.now ≡ self.now }
        ensures few { length self.now ≤ CAPACITY }
    {
        &self.places[..self.count]
    }

    /// Adds a prefix at the end. It takes no memory. Refused with `TableFull` exactly if the table
    /// holds `CAPACITY` prefixes; the table is then as it was.
    pub fn push(&mut self, prefix: Prefix) -> Result<(), CoverError>
        ensures ok { OnOk result (self.new ≡ self.old ++ prefix ∷ []) }
        ensures full { (result ≡ Err CoverError.TableFull) ↔ (CAPACITY ≤ length self.old) }
        ensures err { OnErr result (self.new ≡ self.old) }
    {
        if self.count >= CAPACITY {
            return Err(CoverError::TableFull);
        }
        self.places[self.count] = prefix;
        self.addrs[self.count] = prefix.addr();
        self.masks[self.count] = mask_word(prefix.len());
        self.count += 1;
        Ok(())
    }

    /// The place, counted from 0, of the longest entry that covers the prefix; of several as long,
    /// the first. `None` exactly where no entry covers it.
    pub fn longest(&self, prefix: &Prefix) -> Option<usize>
        ensures { IsLongest self.now prefix.now result }
    {
        longest_in(
            self.as_slice(),
            &self.addrs[..self.count],
            &self.masks[..self.count],
            prefix,
        )
    }
}

/// An entry that covers the prefix: its place and its length.
#[derive(Clone, Copy)]
struct Candidate {
    place: usize,
    // As wide as `place`, so that the struct has no padding: padding is copied through memory.
    len: usize,
}

/// The place of the longest of these entries that covers the prefix; of several as long, the first.
fn longest_in(entries: &[Prefix], addrs: &[u32], masks: &[u32], prefix: &Prefix) -> Option<usize>
    requires { AreColumns entries.now addrs.now masks.now }
    ensures { IsLongest entries.now prefix.now result }
{
    let addr = prefix.addr();
    let mut best: Option<Candidate> = None;
    let mut from = 0;
    while entries.len() - from >= 8 {
        let found = alike(
            u32x8::from_slice(&addrs[from..]),
            u32x8::from_slice(&masks[from..]),
            addr,
        );
        best = best_of_found(entries, prefix, from, found, best);
        from += 8;
    }
    for place in from..entries.len() {
        let entry = entries[place];
        if entry.covers(prefix) && is_longer(entry.len(), &best) {
            best = Some(Candidate {
                place,
                len: entry.len() as usize,
            });
        }
    }
    match best {
        Some(candidate) => Some(candidate.place),
        None => None,
    }
}

/// Which of eight entries begin as the address does, the first in the lowest bit.
fn alike(addrs: u32x8, masks: u32x8, addr: u32) -> u64
    ensures { result ≡ mask_l (zip2 (λ mask start. bit_and addr mask == start) masks addrs) }
{
    (u32x8::splat(addr) & masks).simd_eq(addrs).to_bitmask()
}

/// The best after eight more entries. The bits of `found` mark those that begin as the prefix does.
fn best_of_found(
    entries: &[Prefix],
    prefix: &Prefix,
    from: usize,
    found: u64,
    best: Option<Candidate>,
) -> Option<Candidate>
    requires room { from + 8 ≤ length entries.now }
    requires canonical { All IsCanonical entries.now × IsCanonical prefix.now }
    requires found { found ≡ mask_l (map (is_alike prefix.now) (chunk from 8 entries.now)) }
    requires best { IsBest (take from entries.now) prefix.now best }
    ensures { IsBest (take (from + 8) entries.now) prefix.now result }
{
    let mut best = best;
    let mut left = found;
    let mut at = from;
    while left != 0 {
        let skipped = left.trailing_zeros();
        let place = at + skipped as usize;
        best = better_alike(entries, prefix, place, best);
        left = left >> skipped >> 1;
        at = place + 1;
    }
    best
}

/// The best after the entry at this place, which begins as the prefix does: only its length is left to judge.
fn better_alike(
    entries: &[Prefix],
    prefix: &Prefix,
    place: usize,
    best: Option<Candidate>,
) -> Option<Candidate>
    requires inside { place < length entries.now }
    requires alike { HoldsAt (λ entry. IsTrue (is_alike prefix.now entry)) entries.now place }
    requires best { IsBest (take place entries.now) prefix.now best }
    ensures { IsBest (take (place + 1) entries.now) prefix.now result }
{
    let entry = entries[place];
    let len = entry.len();
    let most = prefix.len();
    if len <= most && is_longer(len, &best) {
        return Some(Candidate {
            place,
            len: len as usize,
        });
    }
    best
}

/// Whether an entry of this length is longer than the best so far, if there is one.
fn is_longer(len: u8, best: &Option<Candidate>) -> bool
    ensures { IsTrue result ↔ MatchOption best.now (Unit {0}) (λ candidate. candidate.len < len) }
{
    match best {
        Some(candidate) => candidate.len < len as usize,
        None => true,
    }
}
