//! `bgpnet stable`: all stable assignments of a network.

ghost use Rattle.std.specs.Prelude.{◌≡◌, IfOk};
ghost use Rattle.net_text.specs.Lexing.{lines_of};
ghost use Rattle.text_engines.specs.Decoding.{output};
ghost use Rattle.stable_engine.specs.Answers.{network_lines, LinesList};

use crate::prefixes::stables_output;
use net_text::{read_network, split_at_section};
use stable_search::SearchLimits;
use std::alloc::{AllocError, Global};
use text_engines::{Engine, text_output};

/// The lines of a network, without those of an assignment or a schedule behind it.
pub fn network_part(input: &[u8]) -> &[u8]
    ensures { lines_of result.now ≡ network_lines input.now }
{
    let split = split_at_section(input, b"assignment");
    split_at_section(split.front, b"schedule").front
}

// What is printed for the lines of a network, and the status.
fn lines_output(
    alloc: Global,
    limits: &SearchLimits,
    text: &[u8],
) -> Result<(Vec<u8>, u8), AllocError>
    ensures { IfOk result (λ printed. LinesList limits.now (lines_of text.now) (output printed.0.items printed.1)) }
{
    match read_network(alloc, text) {
        Ok(network) => stables_output(alloc, &network, limits),
        Err(refused) => text_output(alloc, &refused),
    }
}

/// The engine of `stable`: it reads a network, and writes all of its stable assignments, prefix by prefix; or the first
/// line that is refused. What stands behind a line `assignment` or `schedule` is left out. Its status is
/// [`UNKNOWN`](crate::status::UNKNOWN) where of a prefix a limit was met.
#[derive(Drop)]
pub struct StableEngine<'a> {
    /// The limits within which the assignments of each dispute are searched for.
    pub limits: &'a SearchLimits,
}

impl Engine for StableEngine<'_> {
    ghost gives = { λ engine text out. LinesList engine.limits.now (network_lines text) out };

    fn answer(&self, alloc: Global, text: &[u8]) -> Result<(Vec<u8>, u8), AllocError> {
        lines_output(alloc, self.limits, network_part(text))
    }
}
