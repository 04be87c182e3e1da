//! Octets of the peer are taken and read.

ghost use Rattle.std.specs.Prelude.{◌≡◌, ◌≤◌, true, false, length, IfOk, IfSome};
ghost use Rattle.bgp_values.specs.declared.messages.TheConstants.{MESSAGE_LIMIT};
ghost use Rattle.bgp_framing.specs.Held.{is_waiting};
ghost use Rattle.router_model.specs.Sides.{uses, fed, front, at_hand};
ghost use Rattle.router_side.specs.Acting.{IsToldInFront};
ghost use Rattle.router_side.specs.Sayings.{told_of, IsReadAs, IsSayableWhere};
ghost use Rattle.router_side.specs.SideOf.{side};

use super::Side;
use crate::reading::{Decoded, decode_frame, read_frame};
use crate::told_path::ToldPath;
use bgp_codec::laws::{header_fault_is_short, header_is_its_front, written_has_a_header};
use bgp_codec::{Asn, Rule};
use bgp_framing::Next;
use std::alloc::{AllocError, Global};

impl Side {
    /// Octets of the peer are taken, and used where their incarnation is. It takes no memory.
    pub fn take_piece(&mut self, epoch: u32, octets: &[u8])
        requires piece { length octets.now ≤ MESSAGE_LIMIT }
        requires none { is_waiting (side self.old).held ≡ false }
        ensures { side self.new ≡ fed (side self.old) epoch octets.now }
    {
        if self.uses(epoch) {
            self.framer.feed(octets);
        }
    }

    /// What stands in front of the octets held, as a message or a fault. It is refused only where memory was.
    pub fn front(&self, alloc: Global, rule: &Rule) -> Result<Decoded, AllocError>
        requires { is_waiting (side self.now).held ≡ true }
        ensures reads { IfOk result (IsReadAs rule.now (front rule.now (side self.now).held)) }
        ensures told { IfOk result (λ read. IsSayableWhere rule.now.width (told_of (at_hand read))) }
    {
        header_is_its_front();
        header_fault_is_short();
        written_has_a_header();
        match self.framer.next() {
            Next::Whole(_, end) => {
                let (frame, _) = self.framer.bytes().split_at(end);
                decode_frame(alloc, frame, rule)
            }
            Next::More => unreachable!(),
            Next::Bad(fault) => Ok(Err(fault)),
        }
    }

    /// What [`Side::front`] answers, for a caller that has not asked [`Side::path_in_front`] before: a path
    /// that is told is read from its octets. It is refused only for want of memory.
    pub fn front_to_show(&self, alloc: Global, rule: &Rule) -> Result<Decoded, AllocError>
        requires { is_waiting (side self.now).held ≡ true }
        ensures reads { IfOk result (IsReadAs rule.now (front rule.now (side self.now).held)) }
        ensures told { IfOk result (λ read. IsSayableWhere rule.now.width (told_of (at_hand read))) }
    {
        header_is_its_front();
        match self.framer.next() {
            Next::Whole(_, end) => {
                let (frame, _) = self.framer.bytes().split_at(end);
                read_frame(alloc, frame, rule)
            }
            Next::More | Next::Bad(_) => self.front(alloc, rule),
        }
    }

    /// The path that the message in front tells, where it is such an UPDATE as a router appends for a path, and
    /// one that is announced begins with the peer. It is refused only for want of memory.
    pub fn path_in_front(&self, alloc: Global, peer: Asn) -> Result<Option<ToldPath>, AllocError>
        ensures { IfOk result (λ found. IfSome found (IsToldInFront (side self.now).width peer (side self.now).held)) }
    {
        header_is_its_front();
        match self.framer.next() {
            Next::Whole(_, end) => {
                let (frame, _) = self.framer.bytes().split_at(end);
                ToldPath::read(alloc, self.width, peer, frame)
            }
            Next::More | Next::Bad(_) => Ok(None),
        }
    }
}
