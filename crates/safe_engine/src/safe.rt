//! `bgpnet safe`: whether a network has dispute wheels.

ghost use Rattle.std.specs.Prelude.{IfOk};
ghost use Rattle.net_text.specs.Lexing.{lines_of};
ghost use Rattle.stable_engine.specs.Answers.{network_lines};
ghost use Rattle.text_engines.specs.Decoding.{output};
ghost use Rattle.safe_engine.specs.Answers.{LinesJudge};

use crate::prefixes::safety_output;
use net_text::read_network;
use stable_engine::network_part;
use std::alloc::{AllocError, Global};
use text_engines::{Engine, text_output};

// What is printed for the lines of a network, and the status.
fn lines_output(alloc: Global, paths: usize, text: &[u8]) -> Result<(Vec<u8>, u8), AllocError>
    ensures { IfOk result (λ printed. LinesJudge paths (lines_of text.now) (output printed.0.items printed.1)) }
{
    match read_network(alloc, text) {
        Ok(network) => safety_output(alloc, &network, paths),
        Err(refused) => text_output(alloc, &refused),
    }
}

/// The engine of `safe`: it reads a network, and writes of each prefix whether there is a dispute wheel; or the first line
/// that is refused. What stands behind a line `assignment` or `schedule` is left out. Its status is
/// [`UNKNOWN`](stable_engine::status::UNKNOWN) where it is not known of a prefix.
#[derive(Drop)]
pub struct SafeEngine {
    /// The most paths that are listed of a router without a rule.
    pub paths: usize,
}

impl Engine for SafeEngine {
    ghost gives = { λ engine text out. LinesJudge engine.paths (network_lines text) out };

    fn answer(&self, alloc: Global, text: &[u8]) -> Result<(Vec<u8>, u8), AllocError> {
        lines_output(alloc, self.paths, network_part(text))
    }
}
