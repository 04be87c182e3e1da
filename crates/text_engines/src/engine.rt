//! Engines: each reads a text whole, and writes its answer.

ghost use Rattle.std.specs.Prelude.{ℕ, List, IfOk};
ghost use Rattle.text_engines.specs.Decoding.{Output, output, WithinLimit, OrMemory};
ghost use Rattle.text_engines.specs.Engine.{IsAnswered, gives_by};

use crate::channel::{IoStopped, Sink, Source};
use crate::refusals::refused_output;
use crate::transfer::{INPUT_LIMIT, InputError, read_input, want_of_memory, write_output};
use net_text::Code;
use std::alloc::{AllocError, Global};

/// An engine: it answers a text.
pub trait Engine {
    // The output that it may print for a text within the limit.
    ghost gives: { Self → List ℕ → Output → Type 0 };

    /// The text printed for a text within the limit, and the exit status. Refused only for want of memory.
    fn answer(&self, alloc: Global, text: &[u8]) -> Result<(Vec<u8>, u8), AllocError>
        ensures { IfOk result (λ printed. gives self.now text.now (output printed.0.items printed.1)) };
}

// The text printed for an input, which may be longer than the limit, and the exit status.
fn limited_answer<F>(alloc: Global, answer: F, input: Vec<u8>) -> Result<(Vec<u8>, u8), AllocError>
where
    F: FnOnce(&[u8]) -> Result<(Vec<u8>, u8), AllocError>,
    requires { F.IsAlwaysCallable answer }
    ensures { IfOk result
        (λ printed. WithinLimit (gives_by F.FnOnce answer) input.items (output printed.0.items printed.1)) }
{
    if input.len() > INPUT_LIMIT {
        return refused_output(alloc, 0, Code::OutOfLimit.text());
    }
    answer(input.as_slice())
}

/// Reads the whole input, writes what `answer` gives for it, and returns the exit status. An input of more than
/// [`INPUT_LIMIT`] octets is refused. `answer` gives the text printed for a text within that limit, and the exit status;
/// it is refused only for want of memory.
///
/// If memory is refused it writes `memory` alone and returns 3. It stops only if a read or a write failed; what was
/// written is then a beginning of the text.
pub fn answer_by<F, S, T>(
    alloc: Global,
    answer: F,
    source: &mut S,
    sink: &mut T,
) -> Result<u8, IoStopped>
where
    F: FnOnce(&[u8]) -> Result<(Vec<u8>, u8), AllocError>,
    S: Source,
    T: Sink,
    requires { F.IsAlwaysCallable answer }
    ensures { IsAnswered (OrMemory (WithinLimit (gives_by F.FnOnce answer))) (S.remaining source.old)
        (T.contents sink.old) (T.contents sink.new)
        (S.failed source.old) (S.failed source.new) (T.failed sink.old) (T.failed sink.new) result }
{
    match read_input(alloc, source) {
        Ok(input) => write_output(sink, limited_answer(alloc, answer, input)),
        Err(InputError::Memory) => want_of_memory(sink),
        Err(InputError::Stopped) => Err(IoStopped),
    }
}

/// Does what [`answer_by`] does, with what the engine answers.
pub fn answer_input<E: Engine, S: Source, T: Sink>(
    alloc: Global,
    engine: &E,
    source: &mut S,
    sink: &mut T,
) -> Result<u8, IoStopped>
    ensures { IsAnswered (OrMemory (WithinLimit (E.gives engine.now))) (S.remaining source.old)
        (T.contents sink.old) (T.contents sink.new)
        (S.failed source.old) (S.failed source.new) (T.failed sink.old) (T.failed sink.new) result }
{
    let answer = |text: &[u8]| engine.answer(alloc, text);
    answer_by(alloc, answer, source, sink)
}
