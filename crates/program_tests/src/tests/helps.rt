//! The examples of the helps: what is printed for each is what the help says.

use command_line::run_with;
use command_words::{
    CHECK_HELP, CUT_HELP, DECODE_HELP, PLAY_HELP, RECORD_HELP, RUN_HELP, SAFE_HELP, STABLE_HELP,
    WHY_HELP,
};
use std::alloc::{AllocError, Global};
use std::sync::Wait;
use std::test::Fail;
use std::thread::Threads;
use text_engines::Watched;

// Two routers and a link; router 1 originates 10.1.0.0/16.
const PAIR: &str = "router 1 10.0.0.1\nrouter 2 10.0.0.2\nlink 1 2\norigin 1 10.1.0.0/16\n";

// The routes of both.
const BOTH: &str = "route 1 10.1.0.0/16 1\nroute 2 10.1.0.0/16 2-1\n";

// Words, their help, and the status for the example.
static HELPS: [(&[&str], &str, u8); 7] = [
    (&["decode"], DECODE_HELP, 1),
    (&["check"], CHECK_HELP, 0),
    (&["stable"], STABLE_HELP, 0),
    (&["safe"], SAFE_HELP, 0),
    (&["play"], PLAY_HELP, 0),
    (&["cut", "1"], CUT_HELP, 0),
    (&["why", "2"], WHY_HELP, 0),
];

// How the lines of outputs begin, but for the line `router 2`, with which a line of an input begins too.
static PRINTED: [&str; 17] = [
    "open ",
    "keepalive",
    "fault ",
    "ffffffffffffffffffffffffffffffff",
    "unstable ",
    "now",
    "cut ",
    "route ",
    "flight ",
    "peer ",
    "  timers ",
    "prefix ",
    "dispute ",
    "choice ",
    "rim ",
    "  from ",
    "  told ",
];

fn is_printed(line: &str) -> bool {
    line == "router 2" || PRINTED.iter().any(|front| line.starts_with(*front))
}

// The input of the example of a help, or its output.
fn example_of(alloc: Global, help: &str, printed: bool) -> Result<String, AllocError> {
    let mut text = String::new(alloc);
    for line in help.lines() {
        if let Some(line) = line.strip_prefix("    ")
            && is_printed(line) == printed
        {
            text.push_str(line)?;
            text.push_str("\n")?;
        }
    }
    Ok(text)
}

// Whether the program writes this for these words and this input, with this status.
fn is_answered<R: Threads + Wait + Sync>(
    rt: &R,
    alloc: Global,
    words: &[&str],
    (input, text, status): (&str, &str, u8),
) -> bool {
    let mut reader = Watched::new(input.as_bytes());
    let mut writer = Watched::new(Vec::new(alloc));
    let got = run_with(rt, alloc, words, &mut reader, &mut writer).ok();
    let out: Vec<u8> = writer.into_inner();
    out.as_slice() == text.as_bytes() && got == Some(status)
}

fn is_as_its_help_says<R: Threads + Wait + Sync>(
    rt: &R,
    alloc: Global,
    words: &[&str],
    help: &str,
    status: u8,
) -> Result<bool, AllocError> {
    let input = example_of(alloc, help, false)?;
    let text = example_of(alloc, help, true)?;
    Ok(is_answered(rt, alloc, words, (input.as_str(), text.as_str(), status)))
}

#[test]
fn each_example_is_as_its_help_says(rt: HostRuntime) -> Result<(), Fail> {
    for &(words, help, status) in &HELPS {
        assert!(rt;
            is_as_its_help_says(&rt, rt.alloc(), words, help, status)?,
            "{help}"
        );
    }
    Ok(())
}

fn has_example(alloc: Global, help: &str, input: &str, text: &str) -> Result<bool, AllocError> {
    let is_input = example_of(alloc, help, false)?.as_str() == input;
    Ok(is_input && example_of(alloc, help, true)?.as_str() == text)
}

// The timing of threads decides what `run` prints, so its example is compared alone.
#[test]
fn the_help_of_run_has_its_example(rt: HostRuntime) -> Result<(), Fail> {
    assert!(rt; has_example(rt.alloc(), RUN_HELP, PAIR, BOTH)?);
    Ok(())
}

// What the network in the help of `record` begins with in a schedule.
const BEGUN: &str = "schedule\nstart 1 2\n";

// Whether the program prints a text that begins so for the network of two routers, with status 0.
fn begins_with<R: Threads + Wait + Sync>(
    rt: &R,
    alloc: Global,
    words: &[&str],
    text: &str,
) -> bool {
    let mut reader = Watched::new(PAIR.as_bytes());
    let mut writer = Watched::new(Vec::new(alloc));
    let got = run_with(rt, alloc, words, &mut reader, &mut writer).ok();
    let out: Vec<u8> = writer.into_inner();
    out.as_slice().starts_with(text.as_bytes()) && got == Some(0)
}

// What comes behind the first order is decided by the threads.
#[test]
fn the_help_of_record_has_its_example(rt: HostRuntime) -> Result<(), Fail> {
    let alloc = rt.alloc();
    let begun = format!(in alloc; "{PAIR}{BEGUN}")?;
    let shown = format!(in alloc; "{PAIR}{PAIR}{BEGUN}")?;
    assert!(rt; has_example(alloc, RECORD_HELP, shown.as_str(), "")?);
    let words = ["record", "--turns", "2000", "--snapshots", "4"];
    assert!(rt; begins_with(&rt, alloc, &words, begun.as_str()));
    Ok(())
}
