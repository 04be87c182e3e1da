//! Why a text is refused, and the codes that are printed for it: each stands here and nowhere else.

ghost use Rattle.std.specs.Prelude.{◌≡◌};
ghost use Rattle.net_text.specs.Printing.{code_text};

use thiserror::Error;

/// What is wrong with a text, and the code that is printed for it.
///
/// The first faulty line decides. On one line a wrong form comes first, then the words from left to right, then what
/// came before, then limits on counts, then want of memory. In one word, a part that cannot be read comes first, then a
/// number outside its limit, then a router that is not known or a prefix without an origin, then a path that is not
/// simple. Whether a network has a router, and is connected, is judged once all its lines are good.
#[derive(Clone, Copy, Debug, PartialEq, Eq, Error)]
pub enum Code {
    /// An unknown first word, a wrong number of words, or an octet past ASCII outside a comment.
    #[error("bad form")]
    BadForm,
    /// A number, an address or a path that cannot be read, or an identifier whose first octet is
    /// not 1 to 223 (RFC 4271 section 4.2).
    #[error("unreadable")]
    Unreadable,
    /// A router that no line before names.
    #[error("unknown router")]
    UnknownRouter,
    /// A router, an identifier, a link either way round, an origin's prefix, a rule of one router and prefix, a path in
    /// one rule, a setting, or an assignment that came before; or a link of a router with itself.
    #[error("repeated")]
    Repeated,
    /// Links do not lead from each router to each other one.
    #[error("not connected")]
    NotConnected,
    /// A number or a count outside its limit, or a network without routers.
    #[error("out of limit")]
    OutOfLimit,
    /// A path of a rule that is not simple or does not begin with the rule's router.
    #[error("path not simple")]
    NotSimple,
    /// A prefix that cannot be read, or one without an origin where an origin is asked for.
    #[error("bad prefix")]
    BadPrefix,
    /// A growth was refused.
    #[error("memory")]
    Memory,
    /// A path of an assignment that its router may not have in the network. No reader of texts
    /// answers it; a check of an assignment against its network does.
    #[error("not permitted")]
    NotPermitted,
}

impl Code {
    /// The code as it is printed behind `refused` and a line.
    pub fn text(self) -> &'static [u8]
        ensures { result.now ≡ code_text self }
    {
        match self {
            Code::BadForm => b"N1",
            Code::Unreadable => b"N2",
            Code::UnknownRouter => b"N3",
            Code::Repeated => b"N4",
            Code::NotConnected => b"N5",
            Code::OutOfLimit => b"N6",
            Code::NotSimple => b"N7",
            Code::BadPrefix => b"N8",
            Code::Memory => b"N9",
            Code::NotPermitted => b"S1",
        }
    }
}

/// A text that was refused.
#[derive(Clone, Copy, Debug, PartialEq, Eq)]
pub struct Refused {
    /// The line, counted from 1; 0 if a text without lines is refused as a network.
    pub line: usize,
    /// What is wrong.
    pub code: Code,
}
