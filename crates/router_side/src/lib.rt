//! One side of a router: what it keeps towards one peer.
//!
//! Its contract: a [`Side`] is a side of `router_model` (`specs/SideOf`). An event is drafted first ([`SideDraft`]:
//! small values by copy), judged, given room, and then carried out by appends alone: a refusal has changed nothing.
//! Each draft is the definition's (`specs/Drafts`), and carrying it out is `carried`. The octets of the peer are taken,
//! read as messages and faults, and handled as the session's events (RFC 4271 section 8). UPDATEs and markers are
//! appended behind all that waits.
//!
//! Most events need no draft. A second in which no timer runs out counts the timers down ([`Side::count_down`]). An
//! UPDATE that tells a path, a [`ToldPath`], is told, read and acted on in its octets ([`Side::tell_path`],
//! [`read_frame`], [`Side::path_in_front`], [`Side::act_on_front`]; `specs/Layout`, `specs/Acting`).
//!
//! What a draft says is kept in short (`specs/Sayings`): a message is encoded once. Each UPDATE that is acted on or
//! sent is kept in its octets, behind the others of the side ([`History`]), and is read again if it is asked for.
//!
//! Left out: which peers there are, stamps, tables, and what a router records.
#![tactic(auto)]

mod append;
mod block;
mod brought;
mod draft;
mod drafted;
mod history;
pub mod laws;
mod reading;
mod side;
mod told_path;

pub use brought::Brought;
pub use draft::SideDraft;
pub use drafted::{Say, Says};
pub use history::{History, PastUpdate};
pub use reading::{Decoded, opened, read_frame};
pub use side::Side;
pub use told_path::{MOST_NUMBERS, ToldPath};
