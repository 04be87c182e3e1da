//! What waits to be put towards the peer.

ghost use Rattle.std.specs.Prelude.{◌≡◌, ◌≤◌, IfOk, is_some, ℕ};
ghost use Rattle.bgp_values.specs.declared.messages.TheConstants.{MESSAGE_LIMIT};
ghost use Rattle.outbox.specs.Items.{next_item, octets_waiting};
ghost use Rattle.router_side.specs.SideOf.{side, put_next};

use super::Side;
use outbox::What;
use std::alloc::AllocError;

impl Side {
    /// How many octets of messages wait to be put.
    pub fn octets_waiting(&self) -> usize
        ensures { result ≡ octets_waiting (side self.now).outbox }
    {
        self.outbox.octets_waiting()
    }

    /// Whether anything waits to be put.
    pub fn has_item(&self) -> bool
        ensures { (cut : ℕ) → result ≡ is_some (next_item cut (side self.now).outbox) }
    {
        self.outbox.has_item()
    }

    /// A copy of the item that is put next, a piece being of at most `cut` octets. It is refused only where memory was.
    pub fn next_item(&self, cut: usize) -> Result<Option<What>, AllocError>
        requires some { 1 ≤ cut }
        requires few { cut ≤ MESSAGE_LIMIT }
        ensures { IfOk result (λ next. next ≡ next_item cut (side self.now).outbox) }
    {
        self.outbox.next_item(cut)
    }

    /// The item is put that `next_item` shows at this cut. It takes no memory.
    pub fn item_put(&mut self, cut: usize)
        ensures { side self.new ≡ put_next (side self.old) cut }
    {
        self.outbox.item_put(cut);
    }
}
