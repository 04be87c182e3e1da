//! One end of a link: which incarnation of the connection it is in.
//!
//! Incarnations stand in for transport connections. They are numbered from 1, and both ends use one
//! number for one incarnation. An end dials a number, hears what its peer dials and shuts, and is
//! joined once both have dialled the same number.
//!
//! The one contract: an end is joined exactly where it has dialled the number, has heard it, and has not hung up since;
//! and the numbers that an end dials rise. A call's contract gives the new state as one equation. The laws say what the
//! states mean over every history of calls.
//!
//! RFC 4271 section 8 leaves the transport connection to TCP; all rules here are this project's own.
//! Collision detection (section 6.8) is left out, since a link has one incarnation at a time.
//! Nothing here sends anything, and no call but `dial` can refuse.
#![tactic(auto)]

mod laws;
mod link_end;

pub use laws::{
    epoch_is_greatest_dialled, heard_is_greatest_heard, heard_is_shut_where_it_was_shut,
    joined_where_dialled_and_heard, numbers_dialled_rise, signs_mean,
};
pub use link_end::{Dialled, Heard, LinkEnd, LinkError, Phase, Sign};
