//! The tasks that words ask for, and what each writes. [`written`] has no bound by which it could wait for a thread.

use bgp_codec::Rule;
use bgp_values::Width;
use command_line::{ThreadTask, run_task, run_thread_task};
use command_words::{Asked, Task, ThreadNumbers, read_words};
use stable_search::SearchLimits;
use std::alloc::Global;
use std::sync::Wait;
use std::test::Fail;
use std::thread::Threads;
use text_engines::Watched;
use thread_engines::RunOptions;

// Words whose task starts no thread, what is read, what is written for it, and the status.
struct Row {
    words: &'static [&'static str],
    input: &'static str,
    text: &'static str,
    status: u8,
}

// All rows but the first read the same router, and each word writes what no other does.
static ROWS: [Row; 8] = [
    Row {
        words: &["decode", "--asn", "4"],
        input: "ffffffff ffffffff ffffffff ffffffff 0013 04",
        text: "keepalive\n",
        status: 0,
    },
    Row {
        words: &["check"],
        input: "router 1 10.0.0.1\norigin 1 10.0.0.0/8\nassignment\npath 1 10.0.0.0/8 1\n",
        text: "stable\n",
        status: 0,
    },
    Row {
        words: &["stable"],
        input: "router 1 10.0.0.1\norigin 1 10.0.0.0/8\n",
        text: "prefix 10.0.0.0/8 stable 1\nroute 1 10.0.0.0/8 1\n",
        status: 0,
    },
    Row {
        words: &["safe"],
        input: "router 1 10.0.0.1\norigin 1 10.0.0.0/8\n",
        text: "prefix 10.0.0.0/8 safe\n",
        status: 0,
    },
    Row {
        words: &["play"],
        input: "router 1 10.0.0.1\norigin 1 10.0.0.0/8\nschedule\nrounds 1\n",
        text: "now\nroute 1 10.0.0.0/8 none\n",
        status: 0,
    },
    Row {
        words: &["trace"],
        input: "router 1 10.0.0.1\nschedule\nstart 1 1\n",
        text: "router 1 10.0.0.1\nschedule\n# refused 3 E1\n",
        status: 1,
    },
    Row {
        words: &["cut", "2"],
        input: "router 1 10.0.0.1\nschedule\nsnapshot 1 2\noffer 1\n",
        text: "cut 2 after 1 of 2\n",
        status: 0,
    },
    Row {
        words: &["why", "1"],
        input: "router 1 10.0.0.1\norigin 1 10.0.0.0/8\nschedule\n",
        text: "router 1\nprefix 10.0.0.0/8 keeps none\n",
        status: 0,
    },
];

// What is written for words whose task starts no thread, and the status.
fn written(alloc: Global, words: &[&str], input: &str) -> (Vec<u8>, Option<u8>) {
    let mut reader = Watched::new(input.as_bytes());
    let mut writer = Watched::new(Vec::new(alloc));
    let got = match read_words(alloc, words) {
        Ok(Asked::Task(task)) => run_task(alloc, task, &mut reader, &mut writer).ok(),
        _ => None,
    };
    (writer.into_inner(), got)
}

#[test]
fn words_without_threads_write_their_answers(rt: HostRuntime) -> Result<(), Fail> {
    for row in &ROWS {
        let (out, got) = written(rt.alloc(), row.words, row.input);
        assert!(rt; got == Some(row.status));
        assert!(rt; out.as_slice() == row.text.as_bytes());
    }
    Ok(())
}

#[test]
fn numbers_of_words_are_read(rt: HostRuntime) -> Result<(), Fail> {
    let alloc = rt.alloc();
    let decode = ["decode", "--asn", "4", "--peer", "70000"];
    assert!(rt;
        matches!(
            read_words(alloc, &decode)?,
            Asked::Task(Task::Decode(Rule {
                width: Width::Four,
                peer: Some(70_000),
                own: None
            }))
        )
    );
    assert!(rt; matches!(read_words(alloc, &["cut", "7"])?, Asked::Task(Task::Cut(7))));
    assert!(rt; matches!(read_words(alloc, &["why", "8"])?, Asked::Task(Task::Why(8))));
    assert!(rt;
        matches!(
            read_words(alloc, &["stable"])?,
            Asked::Task(Task::Stable(SearchLimits {
                most: 1_000,
                steps: 10_000_000
            }))
        )
    );
    let stable = ["stable", "--most", "9", "--steps", "10"];
    assert!(rt;
        matches!(
            read_words(alloc, &stable)?,
            Asked::Task(Task::Stable(SearchLimits { most: 9, steps: 10 }))
        )
    );
    assert!(rt;
        matches!(
            read_words(alloc, &["safe"])?,
            Asked::Task(Task::Safe(1_000))
        )
    );
    let safe = ["safe", "--paths", "7"];
    assert!(rt; matches!(read_words(alloc, &safe)?, Asked::Task(Task::Safe(7))));
    assert!(rt;
        matches!(
            read_words(alloc, &["trace"])?,
            Asked::Task(Task::Trace(false))
        )
    );
    assert!(rt;
        matches!(
            read_words(alloc, &["trace", "--octets"])?,
            Asked::Task(Task::Trace(true))
        )
    );
    let run = ["run", "--turns", "300", "--snapshots", "5"];
    assert!(rt;
        matches!(
            read_words(alloc, &run)?,
            Asked::Run(ThreadNumbers {
                turns: 300,
                snapshots: 5
            })
        )
    );
    assert!(rt;
        matches!(
            read_words(alloc, &["record"])?,
            Asked::Record(ThreadNumbers {
                turns: 20_000,
                snapshots: 20
            })
        )
    );
    assert!(rt; matches!(read_words(alloc, &["--version"])?, Asked::Text(_, 0)));
    assert!(rt; matches!(read_words(alloc, &["encode"])?, Asked::Text(_, 2)));
    Ok(())
}

// What is written for a task of threads, in a network of one router.
fn written_by_threads<R: Threads + Wait + Sync>(
    rt: &R,
    alloc: Global,
    task: ThreadTask,
) -> (Vec<u8>, Option<u8>) {
    let mut reader = Watched::new(b"router 1 10.0.0.1\norigin 1 10.0.0.0/8\n".as_slice());
    let mut writer = Watched::new(Vec::new(alloc));
    let got = run_thread_task(rt, alloc, task, &mut reader, &mut writer).ok();
    (writer.into_inner(), got)
}

#[test]
fn words_of_threads_write_their_answers(rt: HostRuntime) -> Result<(), Fail> {
    let options = RunOptions {
        turns: 100,
        snapshots: 1,
    };
    let (routes, got) = written_by_threads(&rt, rt.alloc(), ThreadTask::Run(options));
    assert!(rt; got == Some(0));
    assert!(rt; routes.as_slice() == b"route 1 10.0.0.0/8 1\n".as_slice());
    let (record, got) = written_by_threads(&rt, rt.alloc(), ThreadTask::Record(options));
    assert!(rt; got == Some(0));
    let front = b"router 1 10.0.0.1\norigin 1 10.0.0.0/8\nschedule\noriginate 1 10.0.0.0/8\n";
    assert!(rt; record.as_slice().starts_with(front.as_slice()));
    Ok(())
}
