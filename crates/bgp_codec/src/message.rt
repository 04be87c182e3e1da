//! A message as a value.

ghost use Rattle.std.specs.Prelude.{◌≡◌, ◌↔◌, IsTrue};
ghost use Rattle.bgp_codec.specs.Spelling.{IsWritable};

use crate::notice::Notice;
use crate::open::{Open, fits};
use crate::rule::Rule;
use crate::update::{Update, update_fits};

/// A BGP-4 message (RFC 4271 section 4).
#[derive(Debug, Drop)]
pub enum Message {
    /// OPEN, type 1.
    OpenMsg(Open),
    /// UPDATE, type 2.
    UpdateMsg(Update),
    /// NOTIFICATION, type 3.
    NoticeMsg(Notice),
    /// KEEPALIVE, type 4.
    AliveMsg,
}

/// Whether a reader under the same rule, with nobody named, accepts each field, and each part fits
/// its own length field. [`crate::encode`] judges the length of the whole.
pub fn is_writable(message: &Message, rule: &Rule) -> bool
    ensures { IsTrue result ↔ IsWritable rule.now message.now }
{
    match message {
        Message::OpenMsg(message) => fits(message),
        Message::UpdateMsg(message) => update_fits(rule.width, message),
        Message::NoticeMsg(_) => true,
        Message::AliveMsg => true,
    }
}
