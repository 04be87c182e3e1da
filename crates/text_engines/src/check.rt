//! `bgpnet check`: whether an assignment of paths is stable.

ghost use Rattle.std.specs.Prelude.{◌^◌, ◌<◌, ◌+◌, length, codes, IfOk};
ghost use Rattle.net_text.specs.Lexing.{lines_of};
ghost use Rattle.text_engines.specs.Decoding.{output};
ghost use Rattle.text_engines.specs.Inputs.{NetworkGives, LinesGive};
ghost use Rattle.text_engines.specs.Checking.{AssignmentGives};

use crate::assignments::entries_output;
use crate::engine::Engine;
use crate::refusals::text_output;
use net_text::{Split, read_assignment, read_network, split_at_section};
use std::alloc::{AllocError, Global};

// What is printed for a network and an assignment behind it.
fn network_output(
    alloc: Global,
    lists_all: bool,
    split: &Split,
) -> Result<(Vec<u8>, u8), AllocError>
    requires { split.now.before + length split.now.behind.now < 2 ^ 64 }
    ensures { IfOk result
        (λ printed. NetworkGives (AssignmentGives lists_all) (lines_of split.now.front.now) split.now.before
        (lines_of split.now.behind.now) (output printed.0.items printed.1)) }
{
    match read_network(alloc, split.front) {
        Ok(network) => match read_assignment(alloc, split.behind, split.before, &network) {
            Ok(entries) => entries_output(alloc, lists_all, &network, entries.as_slice()),
            Err(refused) => text_output(alloc, &refused),
        },
        Err(refused) => text_output(alloc, &refused),
    }
}

/// The engine of `check`: it reads a network and an assignment of paths, and writes whether the assignment is stable,
/// or the first line that is refused.
#[derive(Drop)]
pub struct CheckEngine {
    /// Whether all routers that would move are listed, prefix by prefix, and not the first alone.
    pub lists_all: bool,
}

impl Engine for CheckEngine {
    ghost gives = { λ engine text out.
        LinesGive (AssignmentGives engine.lists_all) (codes "assignment") (lines_of text) out };

    fn answer(&self, alloc: Global, text: &[u8]) -> Result<(Vec<u8>, u8), AllocError> {
        let split = split_at_section(text, b"assignment");
        network_output(alloc, self.lists_all, &split)
    }
}
