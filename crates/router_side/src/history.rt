//! The UPDATEs of a side, by incarnation, in octets that tell which they are.

ghost use Rattle.std.specs.Prelude.{◌≡◌, ◌≤◌, ◌++◌, [], length, Ok, IfOk, OnOk, OnErr};
ghost use Rattle.bgp_codec.specs.Faults.{reading};
ghost use Rattle.bgp_codec.specs.Header.{IsFrame};
ghost use Rattle.bgp_codec.specs.Spelling.{written};
ghost use Rattle.bgp_codec.specs.declared.message.Message.TheVariants.{UpdateMsg};
ghost use Rattle.bgp_codec.specs.declared.update.Update as update;
ghost use Rattle.bgp_values.specs.declared.width.Width as widths;
ghost use Rattle.router_model.specs.Sides.{with_update};
ghost use Rattle.router_side.specs.Histories.{history, told_with};
ghost use Rattle.router_side.specs.Sayings.{nobody, IsSayable};
ghost use Rattle.run_model.specs.Octets.{octets_of};

use crate::block::Block;
use crate::told_path::ToldPath;
use bgp_codec::{Rule, Update};
use bgp_values::Width;
use outbox::Outbox;
use std::alloc::{AllocError, Global};
use std::marker::Model;
use std::mem::replace;

// A block has room for the UPDATE for which it is begun, and for so many octets more: at least, and at most.
const LEAST_MORE: usize = 512;

const MOST_MORE: usize = 65_536;

// It has a place for each so many of those; of most UPDATEs more are stored.
const OCTETS_A_PLACE: usize = 20;

/// An UPDATE that was acted on or sent, with its incarnation.
#[derive(Debug, Drop)]
pub struct PastUpdate {
    /// The incarnation of the link.
    pub epoch: u32,
    /// The UPDATE.
    pub update: Update,
}

/// The UPDATEs that were acted on or sent, in their order, each once, in octets that spell them: some
/// twenty-five for a path that is told. They stand in blocks, so that none is moved for those that follow.
#[derive(Debug, Drop)]
pub struct History {
    // Those that had no room for the next, the oldest first.
    full: Vec<Block>,
    // The one behind them.
    last: Block,
}

impl Model for History {
    ghost use Rattle.std.specs.Prelude.{◌-◌, ◌++◌, vec_len, vec_capacity};
    ghost use Rattle.router_side.specs.Histories.{Past, AreStored, AreAllStored, entries_in, octets_in, places_of, spelt_in};

    ghost Value = { Past };

    ghost view = { λ h. record {
      entries = entries_in h.full.items ++ places_of h.last.places.items;
      octets = octets_in h.full.items ++ spelt_in h.last.places.items h.last.octets.items;
      room = vec_capacity h.last.octets - vec_len h.last.octets;
      places = vec_capacity h.last.places - vec_len h.last.places;
    } };

    ghost invariant = { λ h. AreAllStored h.full.items × AreStored h.last.places.items h.last.octets.items };
}

// The rule that names nobody.
pub(crate) fn nobody(width: Width) -> Rule
    ensures { result ≡ nobody width }
{
    let (peer, own) = (None, None);
    Rule { width, peer, own }
}

impl History {
    /// No UPDATE yet. It takes no memory.
    pub fn new(alloc: Global) -> History
        ensures { result.entries ≡ [] }
    {
        History {
            full: Vec::new(alloc),
            last: Block::new(alloc),
        }
    }

    /// The UPDATEs in their order, each with its incarnation. It is refused only for want of memory.
    pub fn updates(&self, alloc: Global, width: Width) -> Result<Vec<PastUpdate>, AllocError>
        ensures { IfOk result (λ told. told.items ≡ told_with width self.now) }
    {
        let mut all = Vec::new(alloc);
        for block in self.full.as_slice() {
            block.put_updates(alloc, width, &mut all)?;
        }
        self.last.put_updates(alloc, width, &mut all)?;
        Ok(all)
    }

    // Makes room for an UPDATE of so many octets. Where a growth is refused all stays.
    pub(crate) fn reserve(&mut self, octets: usize) -> Result<(), AllocError>
        ensures entries { self.new.entries ≡ self.old.entries }
        ensures octets { self.new.octets ≡ self.old.octets }
        ensures room { OnOk result (octets ≤ self.new.room) }
        ensures places { OnOk result (1 ≤ self.new.places) }
        ensures err { OnErr result (self.new ≡ self.old) }
    {
        if self.last.has_room(octets) {
            return Ok(());
        }
        self.begin_block(octets)
    }

    // Begins a block with room for an UPDATE of so many octets, and for more: twice what the last block has, by its
    // octets or by its places, within bounds. Where a growth is refused all stays.
    #[inline(never)]
    fn begin_block(&mut self, octets: usize) -> Result<(), AllocError>
        ensures entries { self.new.entries ≡ self.old.entries }
        ensures octets { self.new.octets ≡ self.old.octets }
        ensures room { OnOk result (octets ≤ self.new.room) }
        ensures places { OnOk result (1 ≤ self.new.places) }
        ensures err { OnErr result (self.new ≡ self.old) }
    {
        let alloc = *self.full.allocator();
        let by_places = self.last.count().saturating_mul(OCTETS_A_PLACE);
        let twice = self.last.len().max(by_places).saturating_mul(2);
        let more = twice.max(LEAST_MORE).min(MOST_MORE);
        let room = octets.saturating_add(more);
        let next = Block::with_room(alloc, room, 1 + more / OCTETS_A_PLACE)?;
        if self.last.is_empty() {
            self.last = next;
            return Ok(());
        }
        self.full.reserve(1)?;
        self.full.push_reserved(replace(&mut self.last, next));
        Ok(())
    }

    // Puts the UPDATE of a frame behind the others, for which there is room, whatever the width.
    pub(crate) fn keep_frame(&mut self, epoch: u32, frame: &[u8])
        requires frame { IsFrame frame.now }
        requires room { length frame.now ≤ self.old.room }
        requires place { 1 ≤ self.old.places }
        ensures { (w : widths.Width) (u : update.Update) → reading (nobody w) frame.now ≡ Ok (UpdateMsg u)
            → history (told_with w self.new) ≡ with_update (history (told_with w self.old)) epoch u }
    {
        self.last.keep_frame(epoch, frame);
    }

    // Appends the UPDATE of a path that is told to what waits towards a peer, for which there is room, and it joins
    // those that are here.
    pub(crate) fn keep_path(
        &mut self,
        width: Width,
        epoch: u32,
        told: &ToldPath,
        outbox: &mut Outbox,
    )
        requires sayable { IsSayable width (UpdateMsg told.now) }
        requires room { length (written width (UpdateMsg told.now)) ≤ self.old.room }
        requires place { 1 ≤ self.old.places }
        requires waiting { length (written width (UpdateMsg told.now)) ≤ outbox.old.room }
        requires more { 1 ≤ outbox.old.places }
        ensures told { history (told_with width self.new)
            ≡ with_update (history (told_with width self.old)) epoch told.now }
        ensures passing { outbox.new.passing
            ≡ outbox.old.passing ++ octets_of epoch (written width (UpdateMsg told.now)) }
    {
        self.last.keep_path(width, epoch, told, outbox);
    }
}
