//! How an input is read whole, and a text written.

ghost use Rattle.std.specs.Prelude.{◌≡◌, ℕ, ◌+◌, ◌<◌, ◌≤◌, ◌++◌, length, vec_len, IfOk, OnOk, OnErr, IsErrOf, true};
ghost use Rattle.std.specs.Io.KnownBytes.{Appends};
ghost use Rattle.text_engines.specs.Engine.{ReadsUpTo, AppendsFront, IsMade, WrittenBy, WrittenFrontBy, limit_text};
ghost use Rattle.text_engines.specs.Decoding.{memory_output};
ghost use Rattle.text_engines.specs.declared.status.TheConstants.{MEMORY};

use crate::channel::{IoStopped, Sink, Source};
use crate::status::MEMORY;
use std::alloc::{AllocError, Global};

/// The greatest number of octets that an input may have.
pub const INPUT_LIMIT: usize = 16_777_216;

// How many octets are asked for at a time.
const CHUNK: usize = 65_536;

/// Why an input was not read.
#[derive(Debug, Drop)]
pub enum InputError {
    /// A growth was refused.
    Memory,
    /// A read failed.
    Stopped,
}

/// Room for what one read gives.
pub(crate) fn new_chunk(alloc: Global) -> Result<Vec<u8>, AllocError>
    ensures { IfOk result (λ chunk. vec_len chunk ≡ CHUNK) }
{
    vec![in alloc; 0u8; CHUNK]
}

// Reads the whole input by a buffer, up to a little more than the limit.
fn read_by<S: Source>(
    alloc: Global,
    source: &mut S,
    chunk: &mut [u8],
) -> Result<Vec<u8>, InputError>
    requires { 0 < length chunk.old }
    ensures ok { IfOk result (λ input. ReadsUpTo INPUT_LIMIT (S.remaining source.old) input.items) }
    ensures stopped { IsErrOf result InputError.Stopped → S.failed source.new ≡ true }
    ensures unfailed { OnOk result (S.failed source.new ≡ S.failed source.old) }
    ensures short { IsErrOf result InputError.Memory → S.failed source.new ≡ S.failed source.old }
{
    let mut input = Vec::new(alloc);
    'chunks: while input.len() <= INPUT_LIMIT {
        match source.take(chunk) {
            Ok(0) => return Ok(input),
            Ok(n) => {
                if input.extend_from_slice(&chunk[..n]).is_err() {
                    return Err(InputError::Memory);
                }
            }
            Err(_) => return Err(InputError::Stopped),
        }
    }
    Ok(input)
}

/// Reads the whole input, up to a little more than the limit.
pub fn read_input<S: Source>(alloc: Global, source: &mut S) -> Result<Vec<u8>, InputError>
    ensures ok { IfOk result (λ input. ReadsUpTo INPUT_LIMIT (S.remaining source.old) input.items) }
    ensures stopped { IsErrOf result InputError.Stopped → S.failed source.new ≡ true }
    ensures unfailed { OnOk result (S.failed source.new ≡ S.failed source.old) }
    ensures short { IsErrOf result InputError.Memory → S.failed source.new ≡ S.failed source.old }
{
    match new_chunk(alloc) {
        Ok(mut chunk) => read_by(alloc, source, chunk.as_mut_slice()),
        Err(_) => Err(InputError::Memory),
    }
}

/// Appends a comment that the text is longer than an input may be, if it is. It is refused only for want of memory, and
/// then changes nothing.
pub fn put_limit(out: &mut Vec<u8>) -> Result<(), AllocError>
    ensures ok { OnOk result (out.new.items ≡ out.old.items ++ limit_text (length out.old.items)) }
    ensures err { OnErr result (out.new.items ≡ out.old.items) }
{
    if out.len() <= INPUT_LIMIT {
        return Ok(());
    }
    out.extend_from_slice(b"# too long to be played: an input has at most 16777216 octets\n")
}

/// Writes the text that was made and returns its status. If memory was refused it writes `memory` alone and returns 3.
pub fn write_output<T: Sink>(
    sink: &mut T,
    made: Result<(Vec<u8>, u8), AllocError>,
) -> Result<u8, IoStopped>
    ensures done { IfOk result (λ status. WrittenBy (IsMade made) (T.contents sink.old) (T.contents sink.new) status) }
    ensures stopped { OnErr result (WrittenFrontBy (IsMade made) (T.contents sink.old) (T.contents sink.new)) }
    ensures failed { OnErr result (T.failed sink.new ≡ true) }
    ensures unfailed { OnOk result (T.failed sink.new ≡ T.failed sink.old) }
{
    match made {
        Ok((text, status)) => {
            write_out(sink, text.as_slice())?;
            Ok(status)
        }
        Err(_) => want_of_memory(sink),
    }
}

/// Writes `memory` alone and answers its status, for want of memory.
pub fn want_of_memory<T: Sink>(sink: &mut T) -> Result<u8, IoStopped>
    ensures ok { IfOk result
        (λ status. (status ≡ MEMORY) × Appends (T.contents sink.old) (T.contents sink.new) memory_output.text) }
    ensures stopped { OnErr result (AppendsFront (T.contents sink.old) (T.contents sink.new) memory_output.text) }
    ensures failed { OnErr result (T.failed sink.new ≡ true) }
    ensures unfailed { OnOk result (T.failed sink.new ≡ T.failed sink.old) }
{
    write_out(sink, b"memory\n")?;
    Ok(MEMORY)
}

/// Writes a text; a beginning of it if a write fails.
pub fn write_out<T: Sink>(sink: &mut T, text: &[u8]) -> Result<(), IoStopped>
    ensures ok { OnOk result (Appends (T.contents sink.old) (T.contents sink.new) text.now) }
    ensures stopped { OnErr result (AppendsFront (T.contents sink.old) (T.contents sink.new) text.now) }
    ensures failed { OnErr result (T.failed sink.new ≡ true) }
    ensures unfailed { OnOk result (T.failed sink.new ≡ T.failed sink.old) }
{
    let mut at = 0usize;
    'pieces: while at < text.len() {
        let (_, rest) = text.split_at(at);
        match sink.put(rest) {
            Ok(n) => at += n,
            Err(_) => return Err(IoStopped),
        }
    }
    Ok(())
}
