//! `bgpnet play`, `bgpnet cut` and `bgpnet why`: what is printed for a network and a schedule behind it.

ghost use Rattle.std.specs.Prelude.{◌^◌, ◌<◌, ◌+◌, length, codes, IfOk};
ghost use Rattle.net_text.specs.Lexing.{lines_of};
ghost use Rattle.text_engines.specs.Decoding.{output};
ghost use Rattle.text_engines.specs.Inputs.{NetworkGives, LinesGive};
ghost use Rattle.play_engine.specs.Playing.{ScheduleGives};
ghost use Rattle.play_engine.specs.Cutting.{IsShown};

use crate::schedules::orders_output;
use net_text::{Split, read_network, split_at_section};
use ranked_policy::Asn;
use schedule_text::read_schedule;
use std::alloc::{AllocError, Global};
use text_engines::{Engine, text_output};

/// An engine: it reads a network and a schedule, and writes what is shown of the world that the schedule leads to, or
/// the first line that is refused.
#[derive(Clone, Copy)]
pub enum Shown {
    /// How the decided snapshots came out, and the routes now: what `play` shows.
    Report,
    /// The cut of the snapshot of this number: what `cut` shows.
    ///
    /// Where the snapshot is settled or moving: how many events were done, and how many of them up to each router's
    /// recording; the routes that the routers recorded; and each UPDATE in flight. Else that it has no cut.
    Cut(u32),
    /// What the router of this number knows: what `why` shows.
    ///
    /// That is the state of each of its sessions, and for each prefix the path that it keeps, what each peer said last,
    /// what it makes of that, and whom it told. Where the network has no such router a refusal of line 0 is written.
    Why(Asn),
}

// What is printed for a network and a schedule behind it.
fn network_output(alloc: Global, shown: Shown, split: &Split) -> Result<(Vec<u8>, u8), AllocError>
    requires { split.now.before + length split.now.behind.now < 2 ^ 64 }
    ensures { IfOk result
        (λ printed. NetworkGives (ScheduleGives (IsShown shown)) (lines_of split.now.front.now) split.now.before
        (lines_of split.now.behind.now) (output printed.0.items printed.1)) }
{
    match read_network(alloc, split.front) {
        Ok(network) => match read_schedule(alloc, split.behind, split.before, &network) {
            Ok(orders) => orders_output(alloc, shown, &network, orders.as_slice()),
            Err(refused) => text_output(alloc, &refused),
        },
        Err(refused) => text_output(alloc, &refused),
    }
}

impl Engine for Shown {
    ghost gives = { λ shown text out.
        LinesGive (ScheduleGives (IsShown shown)) (codes "schedule") (lines_of text) out };

    fn answer(&self, alloc: Global, text: &[u8]) -> Result<(Vec<u8>, u8), AllocError> {
        let split = split_at_section(text, b"schedule");
        network_output(alloc, *self, &split)
    }
}
