//! `bgpnet record`: what a network in threads did, as a schedule.

ghost use Rattle.std.specs.Prelude.{◌≡◌, IfOk};
ghost use Rattle.net_text.specs.Lexing.{lines_of};
ghost use Rattle.text_engines.specs.Decoding.{output};
ghost use Rattle.thread_engines.specs.Recording.{events_of, ending_text, record_output, RecordGives};

mod text;

use crate::chores::RunOptions;
use crate::gates::Until;
use crate::network::{fault_output, run_network};
use crate::record::text::{ending_text, record_text};
use net_text::put_comments;
use net_workers::Record;
use ranked_policy::Network;
use std::alloc::{AllocError, Global};
use std::sync::Wait;
use std::thread::Threads;
use text_engines::put_limit;
use text_engines::status::DONE;

/// What is printed of a record of a network of these lines, and the status: the lines, the line `schedule`, and each
/// event of the record as an order, as they stand there; behind them, as comments, how each snapshot that is decided
/// came out, the line `now` and the routes that the routers of the record keep; and a comment where that is longer than
/// an input may be.
///
/// It answers an error where memory is refused.
pub fn record_output<G>(
    alloc: Global,
    lines: &[u8],
    network: &Network,
    made: &Record<'_, G>,
) -> Result<(Vec<u8>, u8), AllocError>
    ensures { IfOk result
        (λ printed. output printed.0.items printed.1
        ≡ record_output (lines_of lines.now) (events_of made.now.gathered.items)
        (ending_text network.now made.now.collector made.now.workers.items)) }
{
    let ending = ending_text(alloc, network, made)?;
    let mut text = record_text(alloc, lines, made.gathered.as_slice())?;
    put_comments(ending.as_slice(), &mut text)?;
    put_limit(&mut text)?;
    Ok((text, DONE))
}

/// Runs a network of these lines in threads as `bgpnet run` does, but with all snapshots, and answers what they did as a
/// schedule: the network's lines, the line `schedule`, and each event as an order, by its stamp, then by its router, with
/// comments behind them of how the snapshots came out and of the routes that the routers keep in the end; or why the run
/// was refused; and the status. Where that is longer than an input may be a comment says so. It answers an error where
/// memory is refused.
pub fn network_output<R>(
    rt: &R,
    alloc: Global,
    options: &RunOptions,
    lines: &[u8],
    network: &Network,
) -> Result<(Vec<u8>, u8), AllocError>
where
    R: Threads + Wait + Sync,
    ensures { IfOk result
        (λ printed. RecordGives options.now (lines_of lines.now) network.now (output printed.0.items printed.1)) }
{
    match run_network(rt, alloc, options, Until::Last, network) {
        Ok(journals) => {
            let record = journals.gather(alloc)?;
            let _ = record.collector.decided();
            record_output(alloc, lines, network, &record)
        }
        Err(fault) => fault_output(alloc, fault),
    }
}
