//! Appends what is said in short to an outbox, a message as its octets.

ghost use Rattle.std.specs.Prelude.{◌≡◌, ◌≤◌, ◌<◌, ◌+◌, ◌*◌, ◌++◌, length};
ghost use Rattle.bgp_values.specs.declared.messages.TheConstants.{MESSAGE_LIMIT};
ghost use Rattle.bgp_codec.specs.Spelling.{written};
ghost use Rattle.run_model.specs.Octets.{passing};
ghost use Rattle.router_model.specs.Sides.{notification};
ghost use Rattle.router_side.specs.Sayings.{told_of, entries_of, all_entries, size_where, size_of, all_sizes, IsSayable, IsSayableWhere};
ghost use Rattle.router_side.specs.Drafts.{hand};

use crate::brought::Brought;
use crate::drafted::Say;
use crate::history::nobody;
use bgp_codec::laws::written_has_a_header;
use bgp_codec::{Message, Notice, Octets};
use bgp_values::{HEADER_LEN, LEAST_NOTIFICATION, UNSPECIFIC, Width};
use outbox::{Control, Outbox};
use run_model::passing_appends;
use std::alloc::Global;

// How many octets an entry has.
fn size_of(say: Say, own_open: usize, told: usize) -> usize
    ensures { result ≡ size_of own_open told say }
{
    match say {
        Say::Dial(_) | Say::Shut(_) => 0,
        Say::Open(_) => own_open,
        Say::Alive(_) => HEADER_LEN,
        Say::Notice(_, _) => LEAST_NOTIFICATION,
        Say::Given(_) => told,
    }
}

#[tactic(auto, using(crate::proofs::Sizes::one_size))]
// How many octets all entries have, if the OPEN has `own_open`, and the message that tells of a fault has `told`.
pub(crate) fn size_of_all(says: &[Say], own_open: usize, told: usize) -> usize
    requires own { own_open ≤ MESSAGE_LIMIT }
    requires told { told ≤ MESSAGE_LIMIT }
    requires few { length says.now ≤ 40 }
    ensures { result ≡ all_sizes own_open told says.now }
{
    let mut size = 0;
    for say in says {
        size += size_of(*say, own_open, told);
    }
    size
}

#[tactic(auto, using(crate::proofs::Sizes::told_len))]
/// How many octets the message has that tells of what is at hand.
pub(crate) fn size_told(given: &Brought, width: Width) -> usize
    requires { IsSayableWhere width (told_of (hand given.now)) }
    ensures { result ≡ size_where width (told_of (hand given.now)) }
{
    written_has_a_header();
    match given {
        Brought::Nothing | Brought::Update(_) => 0,
        Brought::Fault(notice) => LEAST_NOTIFICATION + notice.extra.len(),
    }
}

// A NOTIFICATION of this code, without data.
fn notice(alloc: Global, code: u8) -> Message
    ensures { result ≡ notification code }
{
    Message::NoticeMsg(Notice {
        code,
        sub: UNSPECIFIC,
        extra: Octets::short(alloc, &[]),
    })
}

#[tactic(auto, using(crate::proofs::Sizes::alive_len, crate::proofs::Sizes::notice_len))]
fn append(
    alloc: Global,
    width: Width,
    outbox: &mut Outbox,
    own_open: &Message,
    told: &Option<Message>,
    say: Say,
)
    requires own { IsSayable width own_open.now }
    requires told { IsSayableWhere width told.now }
    requires octets { size_of (length (written width own_open.now)) (size_where width told.now) say ≤ outbox.old.room }
    requires place { 1 ≤ outbox.old.places }
    ensures passing { outbox.new.passing
        ≡ outbox.old.passing ++ passing (written width) (entries_of own_open.now told.now say) }
    ensures room { outbox.old.room
        ≤ outbox.new.room + size_of (length (written width own_open.now)) (size_where width told.now) say }
    ensures places { outbox.old.places ≤ outbox.new.places + 1 }
{
    written_has_a_header();
    match say {
        Say::Dial(epoch) => outbox.push_control(Control::Dial(epoch)),
        Say::Shut(epoch) => outbox.push_control(Control::Shut(epoch)),
        Say::Open(epoch) => outbox.push_message(epoch, own_open, &nobody(width)),
        Say::Alive(epoch) => outbox.push_message(epoch, &Message::AliveMsg, &nobody(width)),
        Say::Notice(epoch, code) => {
            let message = notice(alloc, code);
            outbox.push_message(epoch, &message, &nobody(width));
        }
        Say::Given(epoch) => {
            if let Some(message) = told {
                outbox.push_message(epoch, message, &nobody(width));
            }
        }
    }
}

/// Appends all entries in their order, for which there is room. It takes no memory.
pub(crate) fn append_all(
    alloc: Global,
    width: Width,
    outbox: &mut Outbox,
    own_open: &Message,
    told: &Option<Message>,
    says: &[Say],
)
    requires own { IsSayable width own_open.now }
    requires told { IsSayableWhere width told.now }
    requires octets { all_sizes (length (written width own_open.now)) (size_where width told.now) says.now
        ≤ outbox.old.room }
    requires places { length says.now ≤ outbox.old.places }
    ensures { outbox.new.passing
        ≡ outbox.old.passing ++ passing (written width) (all_entries own_open.now told.now says.now) }
{
    passing_appends::<Message>();
    for say in says {
        append(alloc, width, outbox, own_open, told, *say);
    }
}
