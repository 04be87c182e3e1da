//! What one word stands for.

ghost use Rattle.std.specs.Prelude.{◌≡◌, ◌≤◌, ◌∷◌, [], ℕ, true, false, length, IfSome, IfNone};
ghost use Rattle.std.specs.List.{list_all, list_any};
ghost use Rattle.net_text.specs.Words.{is_digit, is_number, value_of, is_octet, asn_word, is_router, router_word, address_of, id_word, prefix_of, prefix_word, is_named, origin_word};
ghost use Rattle.bgp_values.specs.Ranges.{is_asn, is_unicast};

use crate::code::Code;
use crate::lexing::cut;
use bgp_values::{Width, is_asn, is_unicast};
use prefix_lanes::Prefix;
use ranked_policy::{Asn, NetRouter, Origin};

// A word of so few octets has a value that 64 bits hold.
const MOST_SHORT: usize = 17;

fn is_digit(x: u8) -> bool
    ensures { result ≡ is_digit x }
{
    x.is_ascii_digit()
}

fn are_digits(word: &[u8]) -> bool
    ensures { result ≡ list_all is_digit word.now }
{
    word.iter().all(|x| is_digit(*x))
}

// The number that a short word spells. Its digits are tested and summed at once.
fn short_number(word: &[u8]) -> Option<u64>
    requires { length word.now ≤ 17 }
    ensures none { IfNone result (list_all is_digit word.now ≡ false) }
    ensures some { IfSome result (λ n. (list_all is_digit word.now ≡ true) × (n ≡ value_of word.now)) }
{
    let mut value = 0u64;
    for x in word {
        if !is_digit(*x) {
            return None;
        }
        value = value * 10 + u64::from(*x - b'0');
    }
    Some(value)
}

// The number that octets spell, however many. One that 64 bits do not hold is answered as the greatest that they hold,
// which is above each limit too.
fn long_value(word: &[u8]) -> u64
    ensures { result ≡ value_of word.now }
{
    let mut value = 0u64;
    for x in word {
        value = value
            .saturating_mul(10)
            .saturating_add(u64::from(x.saturating_sub(b'0')));
    }
    value
}

/// The number that the digits spell, however many; `None` if the word is no number. A number that 64 bits do not hold is
/// answered as the greatest that they hold, which is above each limit too.
pub fn number_of(word: &[u8]) -> Option<u64>
    ensures none { IfNone result (is_number word.now ≡ false) }
    ensures some { IfSome result (λ n. (is_number word.now ≡ true) × (n ≡ value_of word.now)) }
{
    if word.is_empty() {
        return None;
    }
    if word.len() <= MOST_SHORT {
        return short_number(word);
    }
    if are_digits(word) {
        Some(long_value(word))
    } else {
        None
    }
}

// Whether the word is digits, however many, and not empty.
pub(crate) fn is_number(word: &[u8]) -> bool
    ensures { result ≡ is_number word.now }
{
    number_of(word).is_some()
}

// The number that a word spells; that it is a number was judged before.
pub(crate) fn value_of(word: &[u8]) -> u64
    ensures { result ≡ value_of word.now }
{
    match number_of(word) {
        Some(number) => number,
        None => long_value(word),
    }
}

// A number that an AS can have in this width (RFC 4271 section 4.2, RFC 7607).
pub(crate) fn asn_word(width: Width, word: &[u8]) -> Result<Asn, Code>
    ensures { result ≡ asn_word width word.now }
{
    let Some(number) = number_of(word) else {
        return Err(Code::Unreadable);
    };
    if !is_asn(width, number) {
        return Err(Code::OutOfLimit);
    }
    Ok(number as Asn)
}

// Whether the router that has the number if numbers have no gap has it indeed.
fn is_without_gap(routers: &[NetRouter], number: u64) -> bool
    ensures { result ≡ true → is_router routers.now number ≡ true }
{
    let Some(first) = routers.first() else {
        return false;
    };
    let place = number.saturating_sub(u64::from(first.asn));
    place < routers.len() as u64 && u64::from(routers[place as usize].asn) == number
}

// Whether a router has the number. Most networks number their routers without a gap, so one place
// is looked at before all are.
pub(crate) fn is_router(routers: &[NetRouter], number: u64) -> bool
    ensures { result ≡ is_router routers.now number }
{
    is_without_gap(routers, number) || routers.iter().any(|router| u64::from(router.asn) == number)
}

/// The number of a router. Refused with `Unreadable`, then with `OutOfLimit`, then with `UnknownRouter`.
pub fn router_word(width: Width, routers: &[NetRouter], word: &[u8]) -> Result<Asn, Code>
    ensures { result ≡ router_word width routers.now word.now }
{
    let asn = asn_word(width, word)?;
    if !is_router(routers, u64::from(asn)) {
        return Err(Code::UnknownRouter);
    }
    Ok(asn)
}

// The octet that a word spells.
fn octet_of(part: &[u8]) -> Option<u32>
    ensures none { IfNone result (is_octet part.now ≡ false) }
    ensures some { IfSome result (λ n. (is_octet part.now ≡ true) × (n ≡ value_of part.now)) }
{
    match number_of(part) {
        Some(number) if number <= 255 => Some(number as u32),
        _ => None,
    }
}

// The address that four octets with dots between them spell.
pub(crate) fn address_of(word: &[u8]) -> Option<u32>
    ensures { result ≡ address_of word.now }
{
    let (a, rest) = cut(word, b'.')?;
    let (b, rest) = cut(rest, b'.')?;
    let (c, d) = cut(rest, b'.')?;
    if let Some(_) = cut(d, b'.') {
        return None;
    }
    let (a, b) = (octet_of(a)?, octet_of(b)?);
    let (c, d) = (octet_of(c)?, octet_of(d)?);
    Some(((a * 256 + b) * 256 + c) * 256 + d)
}

// The identifier of a router: an address of one host (RFC 4271 section 4.2).
pub(crate) fn id_word(word: &[u8]) -> Result<u32, Code>
    ensures { result ≡ id_word word.now }
{
    let Some(address) = address_of(word) else {
        return Err(Code::Unreadable);
    };
    if !is_unicast(address) {
        return Err(Code::Unreadable);
    }
    Ok(address)
}

// The prefix that an address and a length spell, with a slash between them.
fn prefix_of(word: &[u8]) -> Option<Prefix>
    ensures { result ≡ prefix_of word.now }
{
    let (address, len) = cut(word, b'/')?;
    if let Some(_) = cut(len, b'/') {
        return None;
    }
    let address = address_of(address)?;
    match number_of(len) {
        Some(len) if len <= 32 => Prefix::new(address, len as u8),
        _ => None,
    }
}

pub(crate) fn prefix_word(word: &[u8]) -> Result<Prefix, Code>
    ensures { result ≡ prefix_word word.now }
{
    prefix_of(word).ok_or(Code::BadPrefix)
}

pub(crate) fn is_named(origins: &[Origin], prefix: &Prefix) -> bool
    ensures { result ≡ is_named origins.now prefix.now }
{
    origins.iter().any(|origin| origin.prefix.equals(prefix))
}

/// A prefix that a router originates. Refused with `BadPrefix` if it cannot be read or has no origin.
pub fn origin_word(origins: &[Origin], word: &[u8]) -> Result<Prefix, Code>
    ensures { result ≡ origin_word origins.now word.now }
{
    let prefix = prefix_word(word)?;
    if !is_named(origins, &prefix) {
        return Err(Code::BadPrefix);
    }
    Ok(prefix)
}
