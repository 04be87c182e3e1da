//! The end of a buffer, where a line is being written.

ghost use Rattle.std.specs.Prelude.{◌≡◌, ◌++◌, [], ◌∷◌, ◌≤◌, take, drop, map, decimal, vec_len, is_ok, if◌then◌else◌, OnOk, OnErr};
ghost use Rattle.std.specs.List.{join_with_byte};
ghost use Rattle.hex.specs.Hex.{encode_lower};
ghost use Rattle.net_text.specs.Printing.{hex_or_dash, address_text, numbers_text, prefixes_text};

use crate::decimals::{put_decimal, put_joined, put_numbers};
use crate::prefix_texts::put_prefixes;
use crate::texts::{put_address, put_hex, put_hex_or_dash, put_len, put_octet};
use bgp_codec::Asn;
use prefix_lanes::Prefix;
use std::alloc::AllocError;
use std::marker::Model;
use std::mem;

/// A buffer that keeps what it had in front, while text is written behind it.
#[derive(Drop)]
pub struct TextTail {
    octets: Vec<u8>,
    start: usize,
}

impl Model for TextTail {
    ghost use Rattle.std.specs.Prelude.{◌≤◌, take, drop, vec_len};
    ghost use Rattle.net_text.specs.Printing.{Written};

    ghost Value = { Written };

    ghost view = { λ t. record { front = take t.start t.octets.items; text = drop t.start t.octets.items } };

    ghost invariant = { λ t. t.start ≤ vec_len t.octets };
}

impl TextTail {
    /// Takes the buffer, and leaves an empty one until `finish` gives it back.
    pub fn behind(out: &mut Vec<u8>) -> TextTail
        ensures { result ≡ record { front = out.old.items; text = [] } }
    {
        let alloc = *out.allocator();
        let start = out.len();
        TextTail {
            octets: mem::replace(out, Vec::new(alloc)),
            start,
        }
    }

    /// Gives the buffer back, with what was written or without it.
    pub fn finish(self, keep: bool) -> Vec<u8>
        ensures { result.items ≡ (if keep then self.front ++ self.text else self.front) }
    {
        let TextTail { mut octets, start } = self;
        if !keep {
            octets.truncate(start);
        }
        octets
    }

    /// Writes octets as they are.
    pub fn put_text(&mut self, octets: &[u8]) -> Result<(), AllocError>
        ensures text { self.new.text ≡ (if is_ok result then self.old.text ++ octets.now else self.old.text) }
        ensures front { self.new.front ≡ self.old.front }
    {
        self.octets.extend_from_slice(octets)
    }

    /// Writes a number in decimal digits, or nothing if memory is refused.
    pub fn put_decimal(&mut self, number: u32) -> Result<(), AllocError>
        ensures text { OnOk result (self.new.text ≡ self.old.text ++ decimal number) }
        ensures err { OnErr result (self.new.text ≡ self.old.text) }
        ensures front { self.new.front ≡ self.old.front }
    {
        put_decimal(&mut self.octets, number)
    }

    /// Writes an octet as a number in decimal digits.
    pub(crate) fn put_octet(&mut self, octet: u8) -> Result<(), AllocError>
        ensures text { OnOk result (self.new.text ≡ self.old.text ++ decimal octet) }
        ensures front { self.new.front ≡ self.old.front }
    {
        put_octet(&mut self.octets, octet)
    }

    /// Writes numbers with a mark between them.
    pub(crate) fn put_joined(&mut self, numbers: &[Asn], mark: u8) -> Result<(), AllocError>
        ensures text { OnOk result (self.new.text ≡ self.old.text ++ join_with_byte mark (map decimal numbers.now)) }
        ensures front { self.new.front ≡ self.old.front }
    {
        put_joined(&mut self.octets, numbers, mark)
    }

    /// Writes a path, or nothing if memory is refused.
    pub(crate) fn put_path(&mut self, numbers: &[Asn]) -> Result<(), AllocError>
        ensures text { OnOk result (self.new.text ≡ self.old.text ++ numbers_text numbers.now) }
        ensures err { OnErr result (self.new.text ≡ self.old.text) }
        ensures front { self.new.front ≡ self.old.front }
    {
        put_numbers(&mut self.octets, numbers)
    }

    /// Writes a count in decimal digits, or nothing if memory is refused.
    pub fn put_len(&mut self, len: usize) -> Result<(), AllocError>
        ensures text { OnOk result (self.new.text ≡ self.old.text ++ decimal len) }
        ensures err { OnErr result (self.new.text ≡ self.old.text) }
        ensures front { self.new.front ≡ self.old.front }
    {
        put_len(&mut self.octets, len)
    }

    /// Writes an address.
    pub(crate) fn put_address(&mut self, address: u32) -> Result<(), AllocError>
        ensures text { OnOk result (self.new.text ≡ self.old.text ++ address_text address) }
        ensures front { self.new.front ≡ self.old.front }
    {
        put_address(&mut self.octets, address)
    }

    /// Writes octets in hex.
    pub(crate) fn put_hex(&mut self, octets: &[u8]) -> Result<(), AllocError>
        ensures text { OnOk result (self.new.text ≡ self.old.text ++ encode_lower octets.now) }
        ensures front { self.new.front ≡ self.old.front }
    {
        put_hex(&mut self.octets, octets)
    }

    /// Writes octets in hex, or a dash if there are none.
    pub(crate) fn put_hex_or_dash(&mut self, octets: &[u8]) -> Result<(), AllocError>
        ensures text { OnOk result (self.new.text ≡ self.old.text ++ hex_or_dash octets.now) }
        ensures front { self.new.front ≡ self.old.front }
    {
        put_hex_or_dash(&mut self.octets, octets)
    }

    /// Writes prefixes, a space before each, or nothing if memory is refused.
    pub fn put_prefixes(&mut self, prefixes: &[Prefix]) -> Result<(), AllocError>
        ensures text { OnOk result (self.new.text ≡ self.old.text ++ prefixes_text prefixes.now) }
        ensures err { OnErr result (self.new.text ≡ self.old.text) }
        ensures front { self.new.front ≡ self.old.front }
    {
        put_prefixes(&mut self.octets, prefixes)
    }
}
