//! The octets of a stream that are not used yet.

ghost use Rattle.std.specs.Prelude.{◌≡◌, ◌+◌, ◌≤◌, ℕ, [], ◌++◌, length, take, drop, slice_range, false, IfOk, vec_len, vec_capacity};
ghost use Rattle.bgp_values.specs.declared.messages.TheConstants.{MESSAGE_LIMIT};
ghost use Rattle.bgp_codec.specs.Header.{length_field};
ghost use Rattle.bgp_framing.specs.declared.framer.TheConstants.{MOST_HELD};
ghost use Rattle.bgp_framing.specs.Held.{Held, IsNext, IsFront, is_waiting, HasFrame, with_octets};

use bgp_codec::laws::header_is_its_front;
use bgp_codec::{Fault, header};
use bgp_values::{HEADER_LEN, MESSAGE_LIMIT};
use std::alloc::{AllocError, Global};
use std::marker::Model;

/// The most octets that are held at once: a message less one octet, and a piece as long as one.
const MOST_HELD: usize = 2 * MESSAGE_LIMIT - 1;

/// What stands in front of the octets held.
#[derive(Debug, Drop)]
pub enum Next {
    /// A whole message: the places in the octets held where it begins and where it ends.
    Whole(usize, usize),
    /// Neither a whole message nor a fault.
    More,
    /// A faulty header. It stays in front until [`Framer::clear`].
    Bad(Fault),
}

// What stands in front, as it was found when octets were last added or taken away.
#[derive(Clone, Copy, Debug)]
enum Front {
    // A whole message of so many octets.
    Message(usize),
    // Neither a whole message nor a fault.
    TooFew,
    // A faulty header.
    Faulty,
}

/// The octets that were fed and not used yet, with room for the most that are held.
#[derive(Debug, Drop)]
pub struct Framer {
    // The octets held stand from `used` to `end`; the others do not matter.
    octets: Vec<u8>,
    used: usize,
    end: usize,
    // What stands in front of those held.
    front: Front,
}

impl Model for Framer {
    ghost use Rattle.std.specs.Prelude.{◌≤◌, slice_range, vec_capacity, vec_len};
    ghost use Rattle.bgp_framing.specs.Held.{Held, IsFront};
    ghost use Rattle.bgp_framing.specs.declared.framer.TheConstants.{MOST_HELD};

    ghost Value = { Held };

    ghost view = { λ framer.
        record { octets = slice_range framer.octets.items framer.used framer.end; room = vec_capacity framer.octets } };

    ghost invariant = { λ framer.
        (MOST_HELD ≤ vec_capacity framer.octets) × (framer.used ≤ framer.end) × (framer.end ≤ vec_len framer.octets)
        × IsFront (slice_range framer.octets.items framer.used framer.end) framer.front };
}

/// What stands in front of these octets, as a framer that holds them answers. It takes no memory.
#[inline(always)]
pub fn next_message(alloc: Global, octets: &[u8]) -> Next
    ensures { IsNext octets.now result }
{
    header_is_its_front();
    let Some(first) = octets.first_chunk::<HEADER_LEN>() else {
        return Next::More;
    };
    match header(alloc, first) {
        Err(fault) => Next::Bad(fault),
        Ok(header) => {
            let len = header.len as usize;
            if octets.len() < len {
                Next::More
            } else {
                Next::Whole(0, len)
            }
        }
    }
}

// What stands in front of these octets, without the fault, as a framer keeps it.
fn front_of(alloc: Global, octets: &[u8]) -> Front
    ensures { IsFront octets.now result }
{
    match next_message(alloc, octets) {
        Next::Whole(_, end) => Front::Message(end),
        Next::More => Front::TooFew,
        Next::Bad(_) => Front::Faulty,
    }
}

// The octets from one place to another.
fn between(octets: &Vec<u8>, start: usize, end: usize) -> &[u8]
    requires { (start ≤ end) × (end ≤ vec_len octets.now) }
    ensures { result.now ≡ slice_range octets.now.items start end }
{
    let (held, _) = octets.split_at(end);
    let (_, held) = held.split_at(start);
    held
}

// Lengthens the octets to at least `len`, within their room, which stays as it was. A framer needs this only until it
// has held its longest.
#[inline(never)]
fn lengthen(octets: &mut Vec<u8>, len: usize)
    requires { len ≤ vec_capacity octets.old }
    ensures items { (end : ℕ) → end ≤ vec_len octets.old → take end octets.new.items ≡ take end octets.old.items }
    ensures len { len ≤ vec_len octets.new }
    ensures capacity { vec_capacity octets.new ≡ vec_capacity octets.old }
{
    for _ in octets.len()..len {
        octets.push_reserved(0);
    }
}

// Writes a piece over the octets from a place on, within their room, which stays as it was.
fn put_at(octets: &mut Vec<u8>, at: usize, piece: &[u8])
    requires place { at ≤ vec_len octets.old }
    requires room { at + length piece.now ≤ vec_capacity octets.old }
    ensures items { take (at + length piece.now) octets.new.items ≡ take at octets.old.items ++ piece.now }
    ensures len { at + length piece.now ≤ vec_len octets.new }
    ensures capacity { vec_capacity octets.new ≡ vec_capacity octets.old }
{
    let end = at + piece.len();
    if octets.len() < end {
        lengthen(octets, end);
    }
    octets.slice_mut(at..end).copy_from_slice(piece);
}

impl Framer {
    /// A framer that holds nothing, with room for all that it will hold. Refused only for want of memory.
    pub fn new(alloc: Global) -> Result<Framer, AllocError>
        ensures empty { IfOk result (λ framer. framer.octets ≡ []) }
        ensures room { IfOk result (λ framer. MOST_HELD ≤ framer.room) }
    {
        Ok(Framer {
            octets: Vec::with_capacity(alloc, MOST_HELD)?,
            used: 0,
            end: 0,
            front: Front::TooFew,
        })
    }

    /// What stands in front. It stays the same until octets are fed, dropped or cleared.
    pub fn next(&self) -> Next
        ensures { IsNext self.now.octets result }
    {
        match self.front {
            Front::Message(len) => Next::Whole(0, len),
            Front::TooFew => Next::More,
            Front::Faulty => next_message(*self.octets.allocator(), self.bytes()),
        }
    }

    /// Whether a whole message or a faulty header stands in front.
    pub fn is_waiting(&self) -> bool
        ensures { result ≡ is_waiting self.now.octets }
    {
        !matches!(self.front, Front::TooFew)
    }

    /// The octets held. The places that [`Next::Whole`] names are places in them.
    pub fn bytes(&self) -> &[u8]
        ensures { result.now ≡ self.now.octets }
    {
        between(&self.octets, self.used, self.end)
    }

    /// How many octets are held.
    pub fn rest_len(&self) -> usize
        ensures { result ≡ length self.now.octets }
    {
        self.end - self.used
    }

    /// Adds a piece of the stream, of at most [`MESSAGE_LIMIT`] octets, behind those held. It takes no memory.
    pub fn feed(&mut self, piece: &[u8])
        requires piece_fits { length piece.now ≤ MESSAGE_LIMIT }
        requires none_waits { is_waiting self.old.octets ≡ false }
        ensures { self.new ≡ with_octets self.old (self.old.octets ++ piece.now) }
    {
        header_is_its_front();
        let left = self.end - self.used;
        self.octets.copy_within(self.used..self.end, 0);
        put_at(&mut self.octets, left, piece);
        self.used = 0;
        self.end = left + piece.len();
        self.front = front_of(*self.octets.allocator(), between(&self.octets, 0, self.end));
    }

    /// Takes away the message in front.
    pub fn drop_front(&mut self)
        requires { HasFrame self.old.octets }
        ensures { self.new ≡ with_octets self.old (drop (length_field self.old.octets) self.old.octets) }
    {
        let held = self.bytes();
        let len = u16::from_be_bytes([held[16], held[17]]);
        self.used += len as usize;
        self.front = front_of(
            *self.octets.allocator(),
            between(&self.octets, self.used, self.end),
        );
    }

    /// Takes away all that is held, a fault with it.
    pub fn clear(&mut self)
        ensures { self.new ≡ with_octets self.old [] }
    {
        self.used = 0;
        self.end = 0;
        self.front = Front::TooFew;
    }
}
