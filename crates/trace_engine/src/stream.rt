//! `bgpnet trace`: the run that a schedule leads to, as a schedule.

ghost use Rattle.std.specs.Prelude.{◌^◌, ◌<◌, ◌+◌, length, codes, IfOk};
ghost use Rattle.net_text.specs.Lexing.{lines_of};
ghost use Rattle.text_engines.specs.Decoding.{output};
ghost use Rattle.text_engines.specs.Inputs.{LinesGive};
ghost use Rattle.trace_engine.specs.Tracings.{ScheduleTraces, LinesTrace, network_lines};

use crate::orders::orders_output;
use net_text::{Split, read_network, split_at_section};
use schedule_text::read_schedule;
use std::alloc::{AllocError, Global};
use text_engines::{Engine, text_output};

// What is printed for a network and a schedule behind it.
fn network_output<const OCTETS: bool>(
    alloc: Global,
    split: &Split,
) -> Result<(Vec<u8>, u8), AllocError>
    requires { split.now.before + length split.now.behind.now < 2 ^ 64 }
    ensures { IfOk result
        (λ printed. LinesTrace OCTETS (lines_of split.now.front.now) split.now.before (lines_of split.now.behind.now)
        (output printed.0.items printed.1)) }
{
    match read_network(alloc, split.front) {
        Ok(network) => match read_schedule(alloc, split.behind, split.before, &network) {
            Ok(orders) => {
                orders_output::<OCTETS>(alloc, split.front, &network, orders.as_slice())
            }
            Err(refused) => text_output(alloc, &refused),
        },
        Err(refused) => text_output(alloc, &refused),
    }
}

/// The engine of `trace`: it reads a network and a schedule, and writes the run that the schedule leads to as a
/// schedule: the network's lines, the line `schedule`, and the order of each event that was done, with comments of what
/// it did and of what stood for many events; or the first line that is refused. Where an order is refused its trace
/// ends with a comment that says so.
#[derive(Drop)]
pub struct TraceEngine {
    /// Whether the comments of a put have the octets that go, in hex.
    pub shows_octets: bool,
}

impl Engine for TraceEngine {
    ghost gives = { λ engine text out.
        LinesGive (ScheduleTraces engine.shows_octets (network_lines text)) (codes "schedule") (lines_of text) out };

    fn answer(&self, alloc: Global, text: &[u8]) -> Result<(Vec<u8>, u8), AllocError> {
        let split = split_at_section(text, b"schedule");
        if self.shows_octets {
            network_output::<true>(alloc, &split)
        } else {
            network_output::<false>(alloc, &split)
        }
    }
}
