//! The text printed for an input that is refused.

ghost use Rattle.std.specs.Prelude.{◌≡◌, ◌≢◌, IfOk};
ghost use Rattle.net_text.specs.declared.code.Code.TheVariants.{Memory};
ghost use Rattle.net_text.specs.Printing.{code_text};
ghost use Rattle.text_engines.specs.Decoding.{output, refused};

use crate::status::REFUSED;
use net_text::{Code, Refused, refused_line};
use std::alloc::{AllocError, Global};

/// The text printed for a line that is refused, and the exit status.
pub fn refused_output(alloc: Global, line: usize, code: &[u8]) -> Result<(Vec<u8>, u8), AllocError>
    ensures { IfOk result (λ printed. output printed.0.items printed.1 ≡ refused line code.now) }
{
    let mut out = Vec::new(alloc);
    refused_line(line, code, &mut out)?;
    Ok((out, REFUSED))
}

/// The text printed for a text that is refused, and the exit status. Want of memory is no such
/// refusal: it is an error here.
pub fn text_output(alloc: Global, text: &Refused) -> Result<(Vec<u8>, u8), AllocError>
    ensures kind { IfOk result (λ printed. text.now.code ≢ Memory) }
    ensures output { IfOk result
        (λ printed. output printed.0.items printed.1 ≡ refused text.now.line (code_text text.now.code)) }
{
    if text.code == Code::Memory {
        return Err(AllocError);
    }
    refused_output(alloc, text.line, text.code.text())
}
