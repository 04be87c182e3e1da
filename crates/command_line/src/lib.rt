//! The words behind the program's name, and the engines that they ask for.
//!
//! [`run_task`] hands a task of `command_words` that starts no thread to an engine of `text_engines`, `stable_engine`,
//! `safe_engine`, `play_engine` or `trace_engine`, [`run_thread_task`] a [`ThreadTask`] to one of `thread_engines`, and
//! their contracts say exactly what is written for what is read. `run_task` has no bound by which it could wait for a
//! thread: it returns. [`run_with`] does what the words ask for, and may wait. It answers a status exactly where no
//! read and no write failed. [`status_of`] is the status that the program ends with.
#![tactic(auto)]

ghost use Rattle.std.specs.Prelude.{◌≡◌, true, false, ◌⊎◌, IfOk, IsErr, OnOk, OnErr};
ghost use Rattle.text_engines.specs.declared.status.TheConstants.{STOPPED};

mod tasks;

use command_words::{Asked, ThreadNumbers, read_words};
use std::alloc::{AllocError, Global};
use std::sync::Wait;
use std::thread::Threads;
pub use tasks::{ThreadTask, run_task, run_thread_task};
use text_engines::status::STOPPED;
use text_engines::{IoStopped, Sink, Source, want_of_memory, write_out};
use thread_engines::RunOptions;

// The options of a run in threads.
fn run_options(numbers: ThreadNumbers) -> RunOptions {
    RunOptions {
        turns: numbers.turns,
        snapshots: numbers.snapshots,
    }
}

/// Runs the program on the words behind its name, and answers its status.
pub fn run_with<R: Threads + Wait + Sync, S: Source, T: Sink>(
    rt: &R,
    alloc: Global,
    words: &[&str],
    reader: &mut S,
    writer: &mut T,
) -> Result<u8, IoStopped>
    ensures unfailed { OnOk result
        ((S.failed reader.new ≡ S.failed reader.old) × (T.failed writer.new ≡ T.failed writer.old)) }
    ensures failed { OnErr result ((S.failed reader.new ≡ true) ⊎ (T.failed writer.new ≡ true)) }
    // If a read failed, nothing is written.
    ensures silent { S.failed reader.old ≡ false → S.failed reader.new ≡ true
        → T.contents writer.new ≡ T.contents writer.old }
{
    match read_words(alloc, words) {
        Ok(Asked::Task(task)) => run_task(alloc, task, reader, writer),
        Ok(Asked::Run(numbers)) => {
            let task = ThreadTask::Run(run_options(numbers));
            run_thread_task(rt, alloc, task, reader, writer)
        }
        Ok(Asked::Record(numbers)) => {
            let task = ThreadTask::Record(run_options(numbers));
            run_thread_task(rt, alloc, task, reader, writer)
        }
        Ok(Asked::Text(text, status)) => {
            write_out(writer, text.as_bytes())?;
            Ok(status)
        }
        Err(AllocError) => want_of_memory(writer),
    }
}

/// The status that the program ends with: that of the run, or 4 if a read or a write failed.
pub fn status_of(ended: Result<u8, IoStopped>) -> u8
    ensures done { IfOk ended (λ status. result ≡ status) }
    ensures stopped { IsErr ended → result ≡ STOPPED }
{
    match ended {
        Ok(status) => status,
        Err(IoStopped) => STOPPED,
    }
}
