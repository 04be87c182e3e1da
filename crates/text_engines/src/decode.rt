//! `bgpnet decode`: a stream of BGP octets in hex, as lines.

ghost use Rattle.text_engines.specs.Decoding.{Prints};
ghost use Rattle.text_engines.specs.Engine.{IsAnswered};

use crate::channel::{IoStopped, Sink, Source};
use crate::hex_input::hear;
use crate::transfer::{InputError, want_of_memory, write_output};
use bgp_codec::Rule;
use std::alloc::Global;

/// Reads a stream in hex, writes a line for each message, or the first fault and its NOTIFICATION, and answers the
/// status. It ends as [`crate::answer_by`] does if memory is refused, or a read or a write fails.
pub fn decode_stream<S: Source, T: Sink>(
    alloc: Global,
    rule: &Rule,
    source: &mut S,
    sink: &mut T,
) -> Result<u8, IoStopped>
    ensures { IsAnswered (Prints rule.now) (S.remaining source.old) (T.contents sink.old) (T.contents sink.new)
        (S.failed source.old) (S.failed source.new) (T.failed sink.old) (T.failed sink.new) result }
{
    match hear(alloc, rule, source) {
        Ok(printed) => write_output(sink, Ok(printed)),
        Err(InputError::Memory) => want_of_memory(sink),
        Err(InputError::Stopped) => Err(IoStopped),
    }
}
