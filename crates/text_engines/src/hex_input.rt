//! A stream in hex, printed piece by piece as it is read.

ghost use Rattle.std.specs.Prelude.{◌≡◌, ℕ, List, [], ◌++◌, ◌<◌, length, IfSome, IfOk, OnOk, IsErrOf, true};
ghost use Rattle.text_engines.specs.Decoding.{output, DecodeGives, DigitsGive};
ghost use Rattle.text_engines.specs.Digits.{without_blanks};
ghost use Rattle.text_engines.specs.Hearing.{Hears};
ghost use Rattle.bgp_codec.specs.declared.rule.Rule.{Rule};

use crate::channel::Source;
use crate::digits::Digits;
use crate::refusals::refused_output;
use crate::status::REFUSED;
use crate::stream::{put_last, put_messages};
use crate::transfer::{INPUT_LIMIT, InputError, new_chunk};
use bgp_codec::Rule;
use net_text::Code;
use std::alloc::{AllocError, Global};

// What was read of a stream in hex, and what is printed for it. The octets of messages that were printed are let go.
#[derive(Drop)]
struct Hearing {
    digits: Digits,
    out: Vec<u8>,
    // The status, once nothing is printed for what follows.
    status: Option<u8>,
}

impl Hearing {
    fn new(alloc: Global) -> Hearing
        ensures { (rule : Rule) → Hears rule result [] }
    {
        Hearing {
            digits: Digits::new(alloc),
            out: Vec::new(alloc),
            status: None,
        }
    }

    // Prints the whole messages in front, and lets them go.
    fn print(&mut self, alloc: Global, rule: &Rule) -> Result<(), AllocError>
        ensures { OnOk result ((digits : List ℕ) → Hears rule.now self.old digits → Hears rule.now self.new digits) }
    {
        match self.status {
            Some(_) => {
                let all = self.digits.octets.len();
                self.digits.drop_front(all);
            }
            None => {
                let octets = self.digits.octets.as_slice();
                let (used, status) = put_messages(alloc, rule, octets, &mut self.out)?;
                self.status = status;
                self.digits.drop_front(used);
            }
        }
        Ok(())
    }

    // Reads a piece of the text.
    fn feed(&mut self, alloc: Global, rule: &Rule, text: &mut [u8]) -> Result<(), AllocError>
        ensures { OnOk result
            ((digits : List ℕ) → Hears rule.now self.old digits
            → Hears rule.now self.new (digits ++ without_blanks text.old)) }
    {
        self.digits.feed(text)?;
        if !self.digits.are_hex {
            return Ok(());
        }
        self.print(alloc, rule)
    }

    // What is printed for the whole text, and the status.
    fn finish(self, alloc: Global, rule: &Rule) -> Result<(Vec<u8>, u8), AllocError>
        ensures { IfOk result
            (λ printed. (digits : List ℕ) → Hears rule.now self digits
            → DigitsGive rule.now digits (output printed.0.items printed.1)) }
    {
        let Hearing {
            digits,
            mut out,
            status,
        } = self;
        let Some(octets) = digits.finish() else {
            return Ok((Vec::from_slice(alloc, b"bad hex\n")?, REFUSED));
        };
        match status {
            Some(status) => Ok((out, status)),
            None => {
                let status = put_last(alloc, rule, octets.as_slice(), &mut out)?;
                Ok((out, status))
            }
        }
    }
}

// Reads all that there is by a buffer, up to a little more than the limit, and answers what is printed for it.
fn hear_by<S: Source>(
    alloc: Global,
    rule: &Rule,
    source: &mut S,
    chunk: &mut [u8],
) -> Result<(Vec<u8>, u8), InputError>
    requires { 0 < length chunk.old }
    ensures ok { IfOk result
        (λ printed. IfSome (S.remaining source.old)
        (λ input. DecodeGives rule.now input (output printed.0.items printed.1))) }
    ensures stopped { IsErrOf result InputError.Stopped → S.failed source.new ≡ true }
    ensures unfailed { OnOk result (S.failed source.new ≡ S.failed source.old) }
    ensures short { IsErrOf result InputError.Memory → S.failed source.new ≡ S.failed source.old }
{
    let mut hearing = Hearing::new(alloc);
    let mut total = 0usize;
    'chunks: while total <= INPUT_LIMIT {
        match source.take(chunk) {
            Ok(0) => {
                return match hearing.finish(alloc, rule) {
                    Ok(printed) => Ok(printed),
                    Err(_) => Err(InputError::Memory),
                };
            }
            Ok(n) => {
                total += n;
                if hearing.feed(alloc, rule, &mut chunk[..n]).is_err() {
                    return Err(InputError::Memory);
                }
            }
            Err(_) => return Err(InputError::Stopped),
        }
    }
    match refused_output(alloc, 0, Code::OutOfLimit.text()) {
        Ok(printed) => Ok(printed),
        Err(_) => Err(InputError::Memory),
    }
}

/// Reads all that there is as hex, up to a little more than the limit, and answers what is printed for it, and the
/// status.
pub fn hear<S: Source>(
    alloc: Global,
    rule: &Rule,
    source: &mut S,
) -> Result<(Vec<u8>, u8), InputError>
    ensures ok { IfOk result
        (λ printed. IfSome (S.remaining source.old)
        (λ input. DecodeGives rule.now input (output printed.0.items printed.1))) }
    ensures stopped { IsErrOf result InputError.Stopped → S.failed source.new ≡ true }
    ensures unfailed { OnOk result (S.failed source.new ≡ S.failed source.old) }
    ensures short { IsErrOf result InputError.Memory → S.failed source.new ≡ S.failed source.old }
{
    match new_chunk(alloc) {
        Ok(mut chunk) => hear_by(alloc, rule, source, chunk.as_mut_slice()),
        Err(_) => Err(InputError::Memory),
    }
}
