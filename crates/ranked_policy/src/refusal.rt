//! Why a call refuses.

use thiserror::Error;

/// Why a network was not built further. Refusals are judged in this order, want of memory last; the
/// builder is as it was.
#[derive(Clone, Copy, Debug, PartialEq, Eq, Error)]
pub enum NetError {
    /// A path of a rule names a router twice, or does not begin with the rule's router.
    #[error("a path that is not simple or does not begin with its router")]
    NotSimple,
    /// A path of a rule has more than 16 routers.
    #[error("a path of more than 16 routers")]
    TooLong,
    /// A router's number, an identifier, a link either way round, a prefix with its origin, a rule of one
    /// router and prefix, or a path of one rule came before; or a link joins a router with itself.
    #[error("it came before")]
    Repeated,
    /// A growth was refused.
    #[error("out of memory")]
    Memory,
    /// No router has this number.
    #[error("no such router")]
    UnknownRouter,
    /// A limit of a network would be passed, or the network has no router at all.
    #[error("past a limit")]
    Limit,
    /// A number, a setting or an identifier is outside its range.
    #[error("a number outside its range")]
    BadNumber,
    /// Links do not lead from each router to each other one.
    #[error("the network is not connected")]
    NotConnected,
}
