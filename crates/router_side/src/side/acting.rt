//! An UPDATE that comes in Established is acted on: its draft does nothing else, so none is made.

ghost use Rattle.std.specs.Prelude.{◌≡◌, true, OnOk, OnErr};
ghost use Rattle.bgp_codec.specs.declared.update.Update as updates;
ghost use Rattle.bgp_framing.specs.Held.{is_waiting};
ghost use Rattle.router_model.specs.Sides.{carried, is_up, without_front, HasUpdate};
ghost use Rattle.router_side.specs.SideOf.{side, acting, IsInFront, HasRoomToAct, KeepsRoom};

use super::Side;
use bgp_codec::laws::header_is_its_front;
use bgp_framing::Next;
use bgp_values::MESSAGE_LIMIT;
use session_fsm::FsmEvent;
use std::alloc::AllocError;

impl Side {
    /// Makes room for the UPDATE in front to be acted on. It is refused only for want of memory, and the side stays
    /// as it was, with the room that it had.
    pub fn reserve_acting(&mut self) -> Result<(), AllocError>
        ensures side { side self.new ≡ side self.old }
        ensures room { OnOk result (HasRoomToAct self.new) }
        ensures kept { OnErr result (KeepsRoom self.old self.new) }
    {
        self.acted.reserve(MESSAGE_LIMIT)
    }

    /// The UPDATE in front is acted on in Established, for which there is room: it joins those acted on, and the
    /// HoldTimer is set again (RFC 4271 section 8.2.2). That is all that its draft does. It takes no memory.
    pub fn act_on_front(&mut self)
        requires up { is_up (side self.old) ≡ true }
        requires room { HasRoomToAct self.old }
        requires waits { is_waiting (side self.old).held ≡ true }
        requires front { (u : updates.Update) × IsInFront self.old.width (side self.old).held (HasUpdate u) }
        ensures { (u : updates.Update) → IsInFront self.old.width (side self.old).held (HasUpdate u)
            → side self.new ≡ carried (HasUpdate u) (without_front (side self.old)) (acting (side self.old)) }
    {
        header_is_its_front();
        match self.framer.next() {
            Next::Whole(_, end) => {
                let (frame, _) = self.framer.bytes().split_at(end);
                self.acted.keep_frame(self.link.epoch(), frame);
                self.framer.drop_front();
            }
            Next::More | Next::Bad(_) => unreachable!(),
        }
        let _ = self.session.on(FsmEvent::UpdateMsg);
    }
}
