//! What the words behind the program's name ask for, as `clap` finds it in them.

ghost use Rattle.std.specs.Prelude.{◌≡◌};
ghost use Rattle.std.specs.List.{list_all};
ghost use Rattle.net_text.specs.Words.{is_digit};

use crate::asked::{Asked, Task, ThreadNumbers};
use crate::helps::{
    CHECK_HELP, CUT_HELP, DECODE_HELP, PLAY_HELP, RECORD_HELP, RUN_HELP, SAFE_HELP, STABLE_HELP,
    TOP_HELP, TRACE_HELP, WHY_HELP,
};
use bgp_codec::{NOBODY, Rule};
use bgp_values::{Width, greatest_asn};
use clap::error::ErrorKind;
use clap::{Arg, ArgAction, ArgMatches, Command, Error};
use stable_search::SearchLimits;
use std::alloc::{AllocError, Global};
use text_engines::status::{DONE, USAGE};

// What `--version` says behind the program's name.
const VERSION: &str = "0.1.0";

// The most snapshots that `--snapshots` takes.
const MOST_SNAPSHOTS: u32 = 1_000;

// The chores of each router if `--turns` does not name them.
const TURNS: u32 = 20_000;

// The snapshots if `--snapshots` does not name them.
const SNAPSHOTS: u32 = 20;

// The most choices of a dispute if `--most` does not name them.
const MOST_CHOICES: u32 = 1_000;

// The most steps of the search of a dispute if `--steps` does not name them.
const STEPS: u32 = 10_000_000;

// The most paths of a router without a rule that `safe` lists if `--paths` does not name them.
const MOST_PATHS: u32 = 1_000;

// The arguments that are numbers, each with how it is shown.
static NUMBERS: [(&str, &str); 9] = [
    ("peer", "--peer <AS>"),
    ("asn", "--asn <4>"),
    ("number", "<S>"),
    ("router", "<U>"),
    ("most", "--most <N>"),
    ("steps", "--steps <N>"),
    ("paths", "--paths <N>"),
    ("turns", "--turns <N>"),
    ("snapshots", "--snapshots <K>"),
];

// Whether all octets are decimal digits.
fn are_digits(text: &[u8]) -> bool
    ensures { result ≡ list_all is_digit text.now }
{
    text.iter().all(|octet| octet.is_ascii_digit())
}

// The complaint about the first number that has a sign before it, if one has.
fn sign_of(alloc: Global, found: &ArgMatches) -> Result<Option<String>, AllocError> {
    for (id, shown) in &NUMBERS {
        match found.get_str(id) {
            Some(number) if !are_digits(number.as_bytes()) => {
                let text = format!(in alloc;
                    "error: invalid value for '{shown}': a number is decimal digits alone\n\n\
                    For more information, try '--help'.\n"
                )?;
                return Ok(Some(text));
            }
            Some(_) | None => {}
        }
    }
    Ok(None)
}

// The complaint about a speaker's number that is above those of a width.
fn above(alloc: Global, width: Width, peer: u32) -> Result<String, AllocError> {
    let greatest = greatest_asn(width);
    let text = format!(in alloc;
        "error: invalid value '{peer}' for '--peer <AS>': {peer} is not in 1..={greatest}\n\n\
        For more information, try '--help'.\n"
    )?;
    Ok(text)
}

fn asked_decode(alloc: Global, found: &ArgMatches) -> Result<Asked, AllocError> {
    let width = match found.get_one::<u32>("asn") {
        Some(_) => Width::Four,
        None => Width::Two,
    };
    let peer = found.get_one::<u32>("peer");
    match peer {
        Some(peer) if peer > greatest_asn(width) => {
            Ok(Asked::Text(above(alloc, width, peer)?, USAGE))
        }
        Some(_) | None => Ok(Asked::Task(Task::Decode(Rule {
            width,
            peer,
            own: None,
        }))),
    }
}

// What words ask for that name a number. The words were refused if they lack it.
fn asked_number(alloc: Global, task: Option<Task>, what: &str) -> Result<Asked, AllocError> {
    match task {
        Some(task) => Ok(Asked::Task(task)),
        None => {
            let text = format!(in alloc; "error: the number of a {what} is missing\n")?;
            Ok(Asked::Text(text, USAGE))
        }
    }
}

fn search_limits(found: &ArgMatches) -> SearchLimits {
    let most = found.get_one::<u32>("most").unwrap_or(MOST_CHOICES);
    let steps = found.get_one::<u32>("steps").unwrap_or(STEPS);
    SearchLimits {
        most: most as usize,
        steps: u64::from(steps),
    }
}

fn most_paths(found: &ArgMatches) -> usize {
    found.get_one::<u32>("paths").unwrap_or(MOST_PATHS) as usize
}

fn thread_numbers(found: &ArgMatches) -> ThreadNumbers {
    ThreadNumbers {
        turns: found.get_one::<u32>("turns").unwrap_or(TURNS),
        snapshots: found.get_one::<u32>("snapshots").unwrap_or(SNAPSHOTS),
    }
}

// An argument that is a number from 1 on.
fn number_arg<'a>(alloc: Global, id: &'a str, name: &'a str, help: &'a str) -> Arg<'a> {
    Arg::new(alloc, id)
        .value_name(name)
        .value_parser(clap::value_parser!(u32).range(1..))
        .help(help)
}

// A word behind the program's name.
fn word_command<'a>(alloc: Global, name: &'a str, about: &'a str, help: &'a str) -> Command<'a> {
    Command::new(alloc, name).about(about).after_help(help)
}

fn decode_command<'a>(alloc: Global) -> Result<Command<'a>, AllocError> {
    let peer = number_arg(
        alloc,
        "peer",
        "AS",
        "The speaker's number, 1 to 65535, or to 4294967295 with --asn 4, that its messages are \
        checked against",
    );
    let asn = Arg::new(alloc, "asn")
        .long("asn")
        .value_name("4")
        .value_parser(clap::value_parser!(u32).range(4..5))
        .help("AS numbers have four octets: both speakers said capability 65 (RFC 6793)");
    let about = "Prints the messages of a stream in hex";
    word_command(alloc, "decode", about, DECODE_HELP)
        .arg(peer.long("peer"))?
        .arg(asn)
}

fn trace_command<'a>(alloc: Global) -> Result<Command<'a>, AllocError> {
    let octets = Arg::new(alloc, "octets")
        .long("octets")
        .action(ArgAction::SetTrue)
        .help("Say what is sent in hex, too, as 'decode' takes it");
    let about = "Plays a schedule, and prints the run as a schedule of its events";
    word_command(alloc, "trace", about, TRACE_HELP).arg(octets)
}

fn check_command<'a>(alloc: Global) -> Result<Command<'a>, AllocError> {
    let all = Arg::new(alloc, "all")
        .long("all")
        .action(ArgAction::SetTrue)
        .help("List all routers that would move, prefix by prefix");
    let about = "Says whether an assignment of paths is stable";
    word_command(alloc, "check", about, CHECK_HELP).arg(all)
}

fn cut_command<'a>(alloc: Global) -> Result<Command<'a>, AllocError> {
    let help = "The number of the snapshot, 1 to 4294967295";
    let number = number_arg(alloc, "number", "S", help).required(true);
    let about = "Plays a schedule, and prints the cut of one of its snapshots";
    word_command(alloc, "cut", about, CUT_HELP).arg(number)
}

fn why_command<'a>(alloc: Global) -> Result<Command<'a>, AllocError> {
    let help = "The number of the router, 1 to 4294967295";
    let router = number_arg(alloc, "router", "U", help).required(true);
    let about = "Plays a schedule, and prints what one of its routers knows";
    word_command(alloc, "why", about, WHY_HELP).arg(router)
}

fn stable_command<'a>(alloc: Global) -> Result<Command<'a>, AllocError> {
    let help = "The most choices of a dispute, 1 to 4294967295 [default: 1000]";
    let most = number_arg(alloc, "most", "N", help).long("most");
    let help = "The most steps of the search of a dispute, 1 to 4294967295 [default: 10000000]";
    let steps = number_arg(alloc, "steps", "N", help).long("steps");
    let about = "Lists all stable assignments of a network";
    word_command(alloc, "stable", about, STABLE_HELP)
        .arg(most)?
        .arg(steps)
}

fn safe_command<'a>(alloc: Global) -> Result<Command<'a>, AllocError> {
    let help = "The most paths of a router without a rule, 1 to 4294967295 [default: 1000]";
    let paths = number_arg(alloc, "paths", "N", help).long("paths");
    let about = "Says whether a network has dispute wheels";
    word_command(alloc, "safe", about, SAFE_HELP).arg(paths)
}

// A word that runs a network in threads, with its options.
fn threads_command<'a>(alloc: Global, word: Command<'a>) -> Result<Command<'a>, AllocError> {
    let turns = Arg::new(alloc, "turns")
        .long("turns")
        .value_name("N")
        .value_parser(clap::value_parser!(u32))
        .help("The chores of each router, 1 to 1000000 [default: 20000]");
    let snapshots = Arg::new(alloc, "snapshots")
        .long("snapshots")
        .value_name("K")
        .value_parser(clap::value_parser!(u32).range(1..=i64::from(MOST_SNAPSHOTS)))
        .help("The snapshots that are taken, 1 to 1000 [default: 20]");
    word.arg(turns)?.arg(snapshots)
}

// The words that the program takes.
fn command<'a>(alloc: Global) -> Result<Command<'a>, AllocError> {
    let about = "Plays a schedule of a network's routers";
    let play = word_command(alloc, "play", about, PLAY_HELP);
    let about = "Runs a network in threads";
    let run = word_command(alloc, "run", about, RUN_HELP);
    let about = "Runs a network in threads, and prints what they did as a schedule";
    let record = word_command(alloc, "record", about, RECORD_HELP);
    let about =
        "Decodes BGP-4 messages, says whether paths are a stable assignment, lists all that are, \
        looks for dispute wheels, plays schedules, runs networks";
    word_command(alloc, "bgpnet", about, TOP_HELP)
        .version(VERSION)
        .subcommand_required(true)
        .subcommand(decode_command(alloc)?)?
        .subcommand(check_command(alloc)?)?
        .subcommand(stable_command(alloc)?)?
        .subcommand(safe_command(alloc)?)?
        .subcommand(play)?
        .subcommand(trace_command(alloc)?)?
        .subcommand(cut_command(alloc)?)?
        .subcommand(why_command(alloc)?)?
        .subcommand(threads_command(alloc, run)?)?
        .subcommand(threads_command(alloc, record)?)
}

// The task or text that accepted words ask for.
fn asked_by(alloc: Global, matches: &ArgMatches) -> Result<Asked, AllocError> {
    let Some((word, found)) = matches.subcommand() else {
        return Ok(Asked::Task(Task::Decode(NOBODY)));
    };
    if let Some(text) = sign_of(alloc, found)? {
        return Ok(Asked::Text(text, USAGE));
    }
    match word.as_bytes() {
        b"check" => Ok(Asked::Task(Task::Check(found.get_flag("all")))),
        b"stable" => Ok(Asked::Task(Task::Stable(search_limits(found)))),
        b"safe" => Ok(Asked::Task(Task::Safe(most_paths(found)))),
        b"play" => Ok(Asked::Task(Task::Play)),
        b"trace" => Ok(Asked::Task(Task::Trace(found.get_flag("octets")))),
        b"cut" => asked_number(
            alloc,
            found
                .get_one::<u32>("number")
                .map(|number| Task::Cut(number)),
            "snapshot",
        ),
        b"why" => asked_number(
            alloc,
            found
                .get_one::<u32>("router")
                .map(|router| Task::Why(router)),
            "router",
        ),
        b"run" => Ok(Asked::Run(thread_numbers(found))),
        b"record" => Ok(Asked::Record(thread_numbers(found))),
        _ => asked_decode(alloc, found),
    }
}

fn parse(alloc: Global, words: &[&str]) -> Result<Asked, Error> {
    let matches = command(alloc)?.try_get_matches_from(words)?;
    Ok(asked_by(alloc, &matches)?)
}

/// Reads what the words behind the program's name ask for. Words that the program does not take ask
/// for a text, the complaint about them. It reads no input, and is refused only for want of memory.
pub fn read_words(alloc: Global, words: &[&str]) -> Result<Asked, AllocError> {
    let mut all = vec![in alloc; "bgpnet"]?;
    all.extend_from_slice(words)?;
    match parse(alloc, all.as_slice()) {
        Ok(asked) => Ok(asked),
        Err(error) => {
            if error.kind() == ErrorKind::OutOfMemory {
                return Err(AllocError);
            }
            let status = if error.use_stderr() { USAGE } else { DONE };
            Ok(Asked::Text(error.to_string(alloc)?, status))
        }
    }
}
