//! The engines that do what the words ask for.

ghost use Rattle.std.specs.Prelude.{IfOk};
ghost use Rattle.net_text.specs.Lexing.{lines_of};
ghost use Rattle.text_engines.specs.Decoding.{output};
ghost use Rattle.text_engines.specs.Engine.{IsAnswered};
ghost use Rattle.command_line.specs.Tasks.{TaskPrints, LinesPrintBy, ThreadsPrint};

use command_words::Task;
use net_text::read_network;
use play_engine::Shown;
use safe_engine::SafeEngine;
use stable_engine::StableEngine;
use std::alloc::{AllocError, Global};
use std::sync::Wait;
use std::thread::Threads;
use text_engines::{
    CheckEngine, IoStopped, Sink, Source, answer_by, answer_input, decode_stream, text_output,
};
use thread_engines::{RunOptions, record, run};
use trace_engine::TraceEngine;

/// A task of threads.
#[derive(Clone, Copy)]
pub enum ThreadTask {
    /// Run a network in threads.
    Run(RunOptions),
    /// Run a network in threads, and write what they did as a schedule.
    Record(RunOptions),
}

/// Reads the input of a task that starts no thread, and writes its text; answers the status. It waits for no thread,
/// and always returns. It ends as [`text_engines::answer_by`] does if memory is refused, or a read or a write fails.
pub fn run_task<S: Source, T: Sink>(
    alloc: Global,
    task: Task,
    reader: &mut S,
    writer: &mut T,
) -> Result<u8, IoStopped>
    ensures { IsAnswered (TaskPrints task) (S.remaining reader.old) (T.contents writer.old) (T.contents writer.new)
        (S.failed reader.old) (S.failed reader.new) (T.failed writer.old) (T.failed writer.new) result }
{
    match task {
        Task::Decode(rule) => decode_stream(alloc, &rule, reader, writer),
        Task::Check(lists_all) => answer_input(alloc, &CheckEngine { lists_all }, reader, writer),
        Task::Play => answer_input(alloc, &Shown::Report, reader, writer),
        Task::Trace(shows_octets) => {
            answer_input(alloc, &TraceEngine { shows_octets }, reader, writer)
        }
        Task::Cut(number) => answer_input(alloc, &Shown::Cut(number), reader, writer),
        Task::Why(number) => answer_input(alloc, &Shown::Why(number), reader, writer),
        Task::Stable(limits) => {
            answer_input(alloc, &StableEngine { limits: &limits }, reader, writer)
        }
        Task::Safe(paths) => answer_input(alloc, &SafeEngine { paths }, reader, writer),
    }
}

// What a task of threads prints for the lines of a network, and the status.
fn lines_output<R>(
    rt: &R,
    alloc: Global,
    task: &ThreadTask,
    text: &[u8],
) -> Result<(Vec<u8>, u8), AllocError>
where
    R: Threads + Wait + Sync,
    ensures { IfOk result (λ printed. LinesPrintBy task.now (lines_of text.now) (output printed.0.items printed.1)) }
{
    match read_network(alloc, text) {
        Ok(network) => match task {
            ThreadTask::Run(options) => run::network_output(rt, alloc, options, &network),
            ThreadTask::Record(options) => {
                record::network_output(rt, alloc, options, text, &network)
            }
        },
        Err(refused) => text_output(alloc, &refused),
    }
}

/// Reads the network of a task of threads, runs it, and writes the task's text; answers the status. It waits for the
/// threads. It ends as [`text_engines::answer_by`] does if memory is refused, or a read or a write fails.
pub fn run_thread_task<R, S, T>(
    rt: &R,
    alloc: Global,
    task: ThreadTask,
    reader: &mut S,
    writer: &mut T,
) -> Result<u8, IoStopped>
where
    R: Threads + Wait + Sync,
    S: Source,
    T: Sink,
    ensures { IsAnswered (ThreadsPrint task) (S.remaining reader.old) (T.contents writer.old) (T.contents writer.new)
        (S.failed reader.old) (S.failed reader.new) (T.failed writer.old) (T.failed writer.new) result }
{
    let answer = |text: &[u8]| lines_output(rt, alloc, &task, text);
    answer_by(alloc, answer, reader, writer)
}
