//! BGP-4 messages out of a stream of octets, however the stream is cut.
//!
//! A stream is a list of frames, each the octets of one message with a good header (RFC 4271
//! section 4.1), and a rest that begins with no frame. A [`Framer`] holds what was fed and not used
//! yet, and says what stands in front of it. [`next_message`] says it of octets in one slice.
//!
//! Its contract: [`Framer::next`] answers the first frame of the octets held, the fault of a faulty
//! header in front, or that more octets are wanted. The laws of [`laws`] say that a stream splits
//! once, and that it does not matter how it was cut.
//!
//! Left out: what a frame says, and what is done after a fault.
#![tactic(auto)]

mod framer;
pub mod laws;

pub use framer::{Framer, Next, next_message};
