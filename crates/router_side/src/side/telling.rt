//! Paths and markers that a router says of itself, beside the drafts of its events.

ghost use Rattle.std.specs.Prelude.{◌≡◌, true, OnOk, OnErr};
ghost use Rattle.bgp_codec.specs.declared.message.Message.TheVariants.{UpdateMsg};
ghost use Rattle.router_model.specs.Sides.{is_up, marked};
ghost use Rattle.router_side.specs.Sayings.{IsSayable};
ghost use Rattle.router_side.specs.SideOf.{side, told_by, HasRoomToTell, HasRoomToMark, KeepsRoom};

use super::Side;
use crate::told_path::ToldPath;
use outbox::Control;
use std::alloc::AllocError;

impl Side {
    /// Makes room for a path to be told. It is refused only for want of memory, and the side stays as it was, with the
    /// room that it had, or more.
    pub fn reserve_path(&mut self, told: &ToldPath) -> Result<(), AllocError>
        ensures side { side self.new ≡ side self.old }
        ensures room { OnOk result (HasRoomToTell (UpdateMsg told.now) self.new) }
        ensures kept { OnErr result (KeepsRoom self.old self.new) }
    {
        let len = told.len(self.width);
        self.outbox.reserve(len, 1)?;
        self.sent.reserve(len)?;
        Ok(())
    }

    /// A path is told, for which there is room: its UPDATE is appended, joins those that were sent, and sets the
    /// KeepaliveTimer again (RFC 4271 section 8.2.2). Its octets are put without a message in between. It takes no
    /// memory.
    #[tactic(auto, using(crate::proofs::Said::told_is))]
    pub fn tell_path(&mut self, told: &ToldPath)
        requires up { is_up (side self.old) ≡ true }
        requires sayable { IsSayable self.old.width (UpdateMsg told.now) }
        requires room { HasRoomToTell (UpdateMsg told.now) self.old }
        ensures { side self.new ≡ told_by (side self.old) (UpdateMsg told.now) }
    {
        let epoch = self.link.epoch();
        self.sent
            .keep_path(self.width, epoch, told, &mut self.outbox);
        self.session.update_sent();
    }

    /// Makes room for a marker. It is refused only for want of memory, and the side stays as it was, with the room that
    /// it had, or more.
    pub fn reserve_marker(&mut self) -> Result<(), AllocError>
        ensures side { side self.new ≡ side self.old }
        ensures room { OnOk result (HasRoomToMark self.new) }
        ensures kept { OnErr result (KeepsRoom self.old self.new) }
    {
        self.outbox.reserve(0, 1)?;
        Ok(())
    }

    /// The marker of a snapshot is appended behind all that waits, where there is room for it (Chandy
    /// and Lamport 1985). It takes no memory.
    pub fn mark(&mut self, number: u32)
        requires { HasRoomToMark self.old }
        ensures { side self.new ≡ marked number (side self.old) }
    {
        let epoch = self.link.epoch();
        self.outbox.push_control(Control::Mark(epoch, number));
    }
}
