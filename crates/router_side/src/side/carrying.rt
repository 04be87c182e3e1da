//! A draft is given room, and carried out.

ghost use Rattle.std.specs.Prelude.{◌≡◌, ◌≤◌, ◌++◌, [], true, cond, length, None, OnOk, OnErr};
ghost use Rattle.bgp_codec.specs.Header.{header_fault};
ghost use Rattle.bgp_codec.specs.Spelling.{written};
ghost use Rattle.bgp_framing.specs.Held.{is_waiting};
ghost use Rattle.bgp_values.specs.declared.messages.TheConstants.{MESSAGE_LIMIT};
ghost use Rattle.bgp_values.specs.declared.width.Width as widths;
ghost use Rattle.router_model.specs.Sides.{carried, acted_with, rest_behind, without_front, NoMessage};
ghost use Rattle.router_side.specs.Drafts.{draft, hand};
ghost use Rattle.router_side.specs.Histories.{history, told_with};
ghost use Rattle.router_side.specs.Sayings.{told_of, all_entries, all_sizes, size_where, IsSayable, IsSayableWhere};
ghost use Rattle.router_side.specs.SideOf.{side, IsInFront, HasRoom, KeepsRoom};
ghost use Rattle.run_model.specs.Octets.{passing};
ghost use Rattle.session_fsm.specs.Timers.{ticked};

use super::Side;
use crate::append::{append_all, size_of_all, size_told};
use crate::brought::Brought;
use crate::draft::SideDraft;
use crate::history::History;
use bgp_codec::laws::header_is_its_front;
use bgp_codec::{Message, written_len};
use bgp_framing::{Framer, Next};
use bgp_values::MESSAGE_LIMIT;
use std::alloc::{AllocError, Global};

impl Side {
    /// Makes room for all that a draft appends. It is refused only for want of memory, and the side stays
    /// as it was, with the room that it had, or more.
    pub fn reserve(
        &mut self,
        own_open: &Message,
        given: &Brought,
        made: &SideDraft,
    ) -> Result<(), AllocError>
        requires own { IsSayable self.old.width own_open.now }
        requires told { IsSayableWhere self.old.width (told_of (hand given.now)) }
        ensures side { side self.new ≡ side self.old }
        ensures room { OnOk result (HasRoom own_open.now (told_of (hand given.now)) made.now self.new) }
        ensures kept { OnErr result (KeepsRoom self.old self.new) }
    {
        let says = made.says.as_slice();
        let own = written_len(own_open, self.width);
        let octets = size_of_all(says, own, size_told(given, self.width));
        self.outbox.reserve(octets, says.len())?;
        self.acted.reserve(MESSAGE_LIMIT)?;
        Ok(())
    }

    // Carries a draft out, but for the UPDATE that it acts on.
    fn carry(&mut self, alloc: Global, own_open: &Message, told: &Option<Message>, made: &SideDraft)
        requires own { IsSayable self.old.width own_open.now }
        requires told { IsSayableWhere self.old.width told.now }
        requires octets { all_sizes (length (written self.old.width own_open.now)) (size_where self.old.width told.now)
            made.now.says
            ≤ self.old.outbox.room }
        requires places { length made.now.says ≤ self.old.outbox.places }
        ensures session { self.new.session ≡ made.now.session }
        ensures link { self.new.link ≡ made.now.link }
        ensures outbox { self.new.outbox.passing
            ≡ self.old.outbox.passing
            ++ passing (written self.old.width) (all_entries own_open.now told.now made.now.says) }
        ensures held { self.new.framer.octets ≡ cond made.now.drops [] self.old.framer.octets }
        ensures acted { self.new.acted ≡ self.old.acted }
        ensures sent { self.new.sent ≡ self.old.sent }
        ensures width { self.new.width ≡ self.old.width }
    {
        self.session = made.session;
        self.link = made.link;
        let says = made.says.as_slice();
        append_all(alloc, self.width, &mut self.outbox, own_open, told, says);
        if made.drops {
            self.framer.clear();
        }
    }

    /// Carries out a draft of an event that brings no message, for which there is room. It takes no
    /// memory, and cannot be refused.
    pub fn commit(&mut self, alloc: Global, own_open: &Message, made: &SideDraft)
        requires own { IsSayable self.old.width own_open.now }
        requires room { HasRoom own_open.now None made.now self.old }
        ensures { side self.new ≡ carried NoMessage (side self.old) (draft own_open.now NoMessage made.now) }
    {
        self.carry(alloc, own_open, &None, made);
    }

    /// The timers of the session have one second less left. It takes no memory, and cannot be refused.
    pub fn count_down(&mut self)
        ensures { side self.new ≡ record (side self.old) { session = ticked (side self.old).session } }
    {
        let _ = self.session.tick();
    }

    /// Carries out a draft of the message or fault in front, for which there is room: a message is taken
    /// away, a fault stays. It takes no memory, and cannot be refused.
    pub fn commit_front(
        &mut self,
        alloc: Global,
        own_open: &Message,
        given: Brought,
        made: &SideDraft,
    )
        requires own { IsSayable self.old.width own_open.now }
        requires told { IsSayableWhere self.old.width (told_of (hand given)) }
        requires waits { is_waiting (side self.old).held ≡ true }
        requires front { IsInFront self.old.width (side self.old).held (hand given) }
        requires room { HasRoom own_open.now (told_of (hand given)) made.now self.old }
        ensures { side self.new
            ≡ carried (hand given) (without_front (side self.old)) (draft own_open.now (hand given) made.now) }
    {
        let epoch = made.link.epoch();
        count_front(&mut self.acted, &self.framer, made.acts, &given, epoch);
        self.drop_front();
        let told = fault_notice(given);
        self.carry(alloc, own_open, &told, made);
    }

    // The message in front is taken away; a fault stays. It takes no memory.
    fn drop_front(&mut self)
        requires { is_waiting self.old.framer.octets ≡ true }
        ensures held { self.new.framer.octets
            ≡ rest_behind (header_fault self.old.framer.octets) self.old.framer.octets }
        ensures session { self.new.session ≡ self.old.session }
        ensures link { self.new.link ≡ self.old.link }
        ensures outbox { self.new.outbox ≡ self.old.outbox }
        ensures acted { self.new.acted ≡ self.old.acted }
        ensures sent { self.new.sent ≡ self.old.sent }
        ensures width { self.new.width ≡ self.old.width }
    {
        header_is_its_front();
        if let Next::Whole(..) = self.framer.next() {
            self.framer.drop_front();
        }
    }
}

// The message that tells of what is at hand.
fn fault_notice(given: Brought) -> Option<Message>
    ensures { result ≡ told_of (hand given) }
{
    match given {
        Brought::Nothing | Brought::Update(_) => None,
        Brought::Fault(notice) => Some(Message::NoticeMsg(notice)),
    }
}

// If the draft acts on it, the UPDATE in front joins those acted on, by the octets of its frame. It takes no memory.
fn count_front(acted: &mut History, framer: &Framer, acts: bool, given: &Brought, epoch: u32)
    requires waits { is_waiting framer.now.octets ≡ true }
    requires front { (w : widths.Width) × IsInFront w framer.now.octets (hand given.now) }
    requires room { MESSAGE_LIMIT ≤ acted.old.room }
    requires place { 1 ≤ acted.old.places }
    ensures { (w : widths.Width) → IsInFront w framer.now.octets (hand given.now)
        → history (told_with w acted.new) ≡ acted_with acts (hand given.now) epoch (history (told_with w acted.old)) }
{
    header_is_its_front();
    if !acts {
        return;
    }
    match given {
        Brought::Nothing | Brought::Fault(_) => {}
        Brought::Update(_) => match framer.next() {
            Next::Whole(_, end) => {
                let (frame, _) = framer.bytes().split_at(end);
                acted.keep_frame(epoch, frame);
            }
            Next::More | Next::Bad(_) => unreachable!(),
        },
    }
}
