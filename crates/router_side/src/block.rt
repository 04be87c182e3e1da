//! UPDATEs one behind the other, in octets that tell which they are, in room that never grows. An announcement as a
//! router tells it, where it is heard or told as a [`ToldPath`], is stored without its first octets, which its length
//! and the next octet tell (`announcement_start`). All others are stored whole.

ghost use Rattle.std.specs.Prelude.{ℕ, List, ◌≡◌, ◌+◌, ◌≤◌, ◌∷◌, ◌++◌, ◌↔◌, [], true, length, get_or, Ok, IfOk, OnOk, IsTrue, vec_len, vec_capacity};
ghost use Rattle.bgp_codec.specs.Faults.{reading};
ghost use Rattle.bgp_codec.specs.Header.{IsFrame};
ghost use Rattle.bgp_codec.specs.Spelling.{written};
ghost use Rattle.bgp_codec.specs.declared.message.Message.TheVariants.{UpdateMsg};
ghost use Rattle.bgp_codec.specs.declared.update.Update as update;
ghost use Rattle.bgp_values.specs.declared.width.Width as widths;
ghost use Rattle.router_model.specs.Sides.{with_update};
ghost use Rattle.router_side.specs.Histories.{history, spelt, spelt_by, stored_len, told_stored, updates_read, AreStored, IsStored};
ghost use Rattle.router_side.specs.Sayings.{nobody, IsSayable};
ghost use Rattle.run_model.specs.Octets.{octets_of};

use crate::history::{PastUpdate, nobody};
use crate::told_path::{FRONT, ToldPath, announcement_start, shortened};
use bgp_codec::laws::{header_is_its_front, written_has_a_header, written_is_read};
use bgp_codec::{Message, decode};
use bgp_values::Width;
use outbox::Outbox;
use std::alloc::{AllocError, Global};

// The incarnation of an UPDATE, how many octets it has, and how it is stored.
#[derive(Clone, Copy, Debug)]
struct Stored {
    epoch: u32,
    len: u16,
    // Whether it is stored without the octets of `announcement_start`.
    short: bool,
}

/// UPDATEs in their order, each once.
#[derive(Debug, Drop)]
pub(crate) struct Block {
    octets: Vec<u8>,
    places: Vec<Stored>,
}

// The UPDATE that some octets spell. It is refused only for want of memory: what is kept is an UPDATE.
fn read(alloc: Global, width: Width, epoch: u32, octets: &[u8]) -> Result<PastUpdate, AllocError>
    requires { IsFrame octets.now }
    ensures epoch { IfOk result (λ told. told.epoch ≡ epoch) }
    ensures update { IfOk result (λ told. updates_read (reading (nobody width) octets.now) ≡ told.update ∷ []) }
{
    match decode(alloc, octets, &nobody(width)) {
        Ok(Message::UpdateMsg(update)) => Ok(PastUpdate { epoch, update }),
        Ok(Message::OpenMsg(_) | Message::NoticeMsg(_) | Message::AliveMsg) | Err(_) => {
            Err(AllocError)
        }
    }
}

// How many octets of an UPDATE are stored.
fn stored_len(place: &Stored) -> usize
    requires { (octets : List ℕ) × IsStored place.now octets }
    ensures { result ≡ stored_len place.now }
{
    let len = place.len as usize;
    if place.short { len - FRONT } else { len }
}

// The octet in front: 0 where there is none.
fn first(octets: &[u8]) -> u8
    ensures { result ≡ get_or octets.now 0 0 }
{
    match octets {
        [first, ..] => *first,
        [] => 0,
    }
}

// The octets of an UPDATE of `len` octets that are stored without those of `announcement_start`. It is refused only
// where memory was.
fn with_front(alloc: Global, len: u16, octets: &[u8]) -> Result<Vec<u8>, AllocError>
    ensures { IfOk result (λ whole. whole.items ≡ spelt_by true len octets.now) }
{
    let mut whole = Vec::with_capacity(alloc, len as usize)?;
    whole.extend_from_slice(&announcement_start(len, first(octets)))?;
    whole.extend_from_slice(octets)?;
    Ok(whole)
}

// The UPDATE at a place, by its stored octets. It is refused only for want of memory.
fn read_stored(
    alloc: Global,
    width: Width,
    place: &Stored,
    octets: &[u8],
) -> Result<PastUpdate, AllocError>
    requires { IsStored place.now octets.now }
    ensures epoch { IfOk result (λ told. told.epoch ≡ place.now.epoch) }
    ensures update { IfOk result
        (λ told. updates_read (reading (nobody width) (spelt place.now octets.now)) ≡ told.update ∷ []) }
{
    if place.short {
        let whole = with_front(alloc, place.len, octets)?;
        read(alloc, width, place.epoch, whole.as_slice())
    } else {
        read(alloc, width, place.epoch, octets)
    }
}

impl Block {
    // No UPDATE, and no room. It takes no memory.
    pub(crate) fn new(alloc: Global) -> Block
        ensures octets { result.octets.items ≡ [] }
        ensures places { result.places.items ≡ [] }
    {
        Block {
            octets: Vec::new(alloc),
            places: Vec::new(alloc),
        }
    }

    // No UPDATE, with room for so many octets, and for so many UPDATEs. It is refused only for want of memory.
    pub(crate) fn with_room(
        alloc: Global,
        octets: usize,
        places: usize,
    ) -> Result<Block, AllocError>
        ensures octets { IfOk result (λ block. block.octets.items ≡ []) }
        ensures places { IfOk result (λ block. block.places.items ≡ []) }
        ensures room { IfOk result (λ block. vec_len block.octets + octets ≤ vec_capacity block.octets) }
        ensures more { IfOk result (λ block. vec_len block.places + places ≤ vec_capacity block.places) }
    {
        Ok(Block {
            octets: Vec::with_capacity(alloc, octets)?,
            places: Vec::with_capacity(alloc, places)?,
        })
    }

    // Whether there is room for one UPDATE more, of so many octets.
    pub(crate) fn has_room(&self, octets: usize) -> bool
        ensures { IsTrue result
            ↔ ((vec_len self.now.octets + octets ≤ vec_capacity self.now.octets)
            × (vec_len self.now.places + 1 ≤ vec_capacity self.now.places)) }
    {
        let left = self.octets.capacity() - self.octets.len();
        octets <= left && self.places.len() < self.places.capacity()
    }

    // Whether no UPDATE is here.
    pub(crate) fn is_empty(&self) -> bool
        ensures { IsTrue result ↔ (self.now.places.items ≡ []) }
    {
        self.places.is_empty()
    }

    // How many octets of them are stored.
    pub(crate) fn len(&self) -> usize
        ensures { result ≡ vec_len self.now.octets }
    {
        self.octets.len()
    }

    // How many UPDATEs are here.
    pub(crate) fn count(&self) -> usize
        ensures { result ≡ vec_len self.now.places }
    {
        self.places.len()
    }

    // Appends the UPDATEs, each with its incarnation. It is refused only for want of memory.
    pub(crate) fn put_updates(
        &self,
        alloc: Global,
        width: Width,
        all: &mut Vec<PastUpdate>,
    ) -> Result<(), AllocError>
        requires { AreStored self.now.places.items self.now.octets.items }
        ensures { OnOk result
            (all.new.items ≡ all.old.items ++ told_stored width self.now.places.items self.now.octets.items) }
    {
        let mut rest = self.octets.as_slice();
        for place in self.places.as_slice() {
            let (octets, behind) = rest.split_at(stored_len(place));
            all.push(read_stored(alloc, width, place, octets)?)?;
            rest = behind;
        }
        Ok(())
    }

    // Puts the UPDATE of a frame behind the others, for which there is room, whatever the width.
    pub(crate) fn keep_frame(&mut self, epoch: u32, frame: &[u8])
        requires kept { AreStored self.old.places.items self.old.octets.items }
        requires frame { IsFrame frame.now }
        requires room { vec_len self.old.octets + length frame.now ≤ vec_capacity self.old.octets }
        requires place { vec_len self.old.places + 1 ≤ vec_capacity self.old.places }
        ensures kept { AreStored self.new.places.items self.new.octets.items }
        ensures told { (w : widths.Width) (u : update.Update) → reading (nobody w) frame.now ≡ Ok (UpdateMsg u)
            → history (told_stored w self.new.places.items self.new.octets.items)
            ≡ with_update (history (told_stored w self.old.places.items self.old.octets.items)) epoch u }
    {
        header_is_its_front();
        let (short, stored) = shortened(frame);
        self.octets.extend_from_slice(stored).unwrap();
        let len = frame.len() as u16;
        self.places.push_reserved(Stored { epoch, len, short });
    }

    // Appends the UPDATE of a path that is told to what waits towards a peer, for which there is room, and it joins
    // those that are here.
    pub(crate) fn keep_path(
        &mut self,
        width: Width,
        epoch: u32,
        told: &ToldPath,
        outbox: &mut Outbox,
    )
        requires kept { AreStored self.old.places.items self.old.octets.items }
        requires sayable { IsSayable width (UpdateMsg told.now) }
        requires room { vec_len self.old.octets + length (written width (UpdateMsg told.now))
            ≤ vec_capacity self.old.octets }
        requires place { vec_len self.old.places + 1 ≤ vec_capacity self.old.places }
        requires waiting { length (written width (UpdateMsg told.now)) ≤ outbox.old.room }
        requires more { 1 ≤ outbox.old.places }
        ensures kept { AreStored self.new.places.items self.new.octets.items }
        ensures told { history (told_stored width self.new.places.items self.new.octets.items)
            ≡ with_update (history (told_stored width self.old.places.items self.old.octets.items)) epoch told.now }
        ensures passing { outbox.new.passing
            ≡ outbox.old.passing ++ octets_of epoch (written width (UpdateMsg told.now)) }
    {
        written_has_a_header();
        written_is_read();
        header_is_its_front();
        let before = self.octets.len();
        match told.put(width, &mut self.octets) {
            Some(front) => {
                let (_, rest) = self.octets.split_at(before);
                outbox.push_parts(epoch, &front, rest);
                let (len, short) = ((FRONT + rest.len()) as u16, true);
                self.places.push_reserved(Stored { epoch, len, short });
            }
            None => {
                let (_, put) = self.octets.split_at(before);
                outbox.push_octets(epoch, put);
                let (len, short) = (put.len() as u16, false);
                self.places.push_reserved(Stored { epoch, len, short });
            }
        }
    }
}
