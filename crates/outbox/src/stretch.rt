//! The places of an outbox: which incarnation's octets stand where, and the control items between them.

ghost use Rattle.std.specs.Prelude.{◌≡◌, Some};
ghost use Rattle.outbox.specs.Items.{item_of};
ghost use Rattle.outbox.specs.Places.{entry_of};

use crate::item::What;

/// A control item: what passes a link whole.
#[derive(Clone, Copy, Debug, PartialEq, Eq)]
pub enum Control {
    /// An offer to connect in this incarnation.
    Dial(u32),
    /// The marker of a snapshot: its incarnation, and the snapshot's number.
    Mark(u32, u32),
    /// The end of an incarnation.
    Shut(u32),
}

impl Control {
    // The control item as an item.
    pub(crate) fn item(self) -> What
        ensures { Some result ≡ item_of (entry_of self) }
    {
        match self {
            Control::Dial(epoch) => What::Dial(epoch),
            Control::Mark(epoch, number) => What::Mark(epoch, number),
            Control::Shut(epoch) => What::Shut(epoch),
        }
    }
}

/// A stretch of what waits.
#[derive(Clone, Copy, Debug, PartialEq, Eq)]
pub(crate) enum Stretch {
    /// So many octets of an incarnation, the next ones of the buffer.
    Run(u32, usize),
    /// A control item.
    Single(Control),
}
