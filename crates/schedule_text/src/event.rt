//! The lines of events, as a schedule orders them. Each call appends a whole line, with its end; a refused call
//! changes nothing.

ghost use Rattle.std.specs.Prelude.{◌≡◌, ◌+◌, ◌≤◌, ◌++◌, length, take, OnOk, OnErr};
ghost use Rattle.schedule_text.specs.Events.{one_line, two_line, prefix_line, command_line, event_line};

use net_text::{write_decimal, write_mark, write_prefix, write_text};
use prefix_lanes::Prefix;
use ranked_policy::Asn;
use router_model::Command;
use std::alloc::AllocError;
use world_core::Event;

// The most octets that may change where an event is written: ten of the longest word, a number, a prefix and the end.
const EVENT_ROOM: usize = 42;

// Writes a word and a number at a place, and answers the place behind the line.
#[tactic(auto, unfolding(crate::specs::Events::one_line))]
fn write_one(text: &mut [u8], at: usize, word: &[u8], number: Asn) -> usize
    requires { at + (length word.now + 12) ≤ length text.old }
    ensures { take result text.new ≡ take at text.old ++ one_line word.now number }
{
    let at = write_text(text, at, word);
    let at = write_decimal(text, at, number);
    write_mark(text, at, b'\n')
}

// Writes a word and two numbers.
#[tactic(auto, unfolding(crate::specs::Events::two_line))]
fn write_two(text: &mut [u8], at: usize, word: &[u8], one: u32, other: u32) -> usize
    requires { at + (length word.now + 24) ≤ length text.old }
    ensures { take result text.new ≡ take at text.old ++ two_line word.now one other }
{
    let at = write_text(text, at, word);
    let at = write_decimal(text, at, one);
    let at = write_mark(text, at, b' ');
    let at = write_decimal(text, at, other);
    write_mark(text, at, b'\n')
}

// Writes a word, a number and a prefix.
#[tactic(auto, unfolding(crate::specs::Events::prefix_line))]
fn write_origin(text: &mut [u8], at: usize, word: &[u8], number: Asn, prefix: &Prefix) -> usize
    requires { at + (length word.now + 32) ≤ length text.old }
    ensures { take result text.new ≡ take at text.old ++ prefix_line word.now number prefix.now }
{
    let at = write_text(text, at, word);
    let at = write_decimal(text, at, number);
    let at = write_prefix(text, at, prefix);
    write_mark(text, at, b'\n')
}

fn write_command(text: &mut [u8], at: usize, number: Asn, command: Command) -> usize
    requires { at + EVENT_ROOM ≤ length text.old }
    ensures { take result text.new ≡ take at text.old ++ command_line number command }
{
    match command {
        Command::Start(peer) => write_two(text, at, b"start ", number, peer),
        Command::Stop(peer) => write_two(text, at, b"stop ", number, peer),
        Command::Reset(peer) => write_two(text, at, b"reset ", number, peer),
        Command::Originate(prefix) => write_origin(text, at, b"originate ", number, &prefix),
        Command::Withdraw(prefix) => write_origin(text, at, b"withdraw ", number, &prefix),
        Command::Snapshot(snapshot) => write_two(text, at, b"snapshot ", number, snapshot),
        Command::Restart => write_one(text, at, b"restart ", number),
    }
}

fn write_event(text: &mut [u8], at: usize, event: &Event) -> usize
    requires { at + EVENT_ROOM ≤ length text.old }
    ensures { take result text.new ≡ take at text.old ++ event_line event.now }
{
    match *event {
        Event::Command(number, command) => write_command(text, at, number, command),
        Event::Tick(number) => write_one(text, at, b"tick ", number),
        Event::Put(number, peer) => write_two(text, at, b"put ", number, peer),
        Event::Take(number, peer) => write_two(text, at, b"take ", number, peer),
        Event::Handle(number, peer) => write_two(text, at, b"handle ", number, peer),
        Event::Decide(number) => write_one(text, at, b"decide ", number),
        Event::Advertise(number) => write_one(text, at, b"advertise ", number),
        Event::Offer(number) => write_one(text, at, b"offer ", number),
    }
}

/// Appends the line that orders an event: `put 1 2`. It is refused only for want of memory, and then changes nothing.
pub fn event_line(event: &Event, out: &mut Vec<u8>) -> Result<(), AllocError>
    ensures ok { OnOk result (out.new.items ≡ out.old.items ++ event_line event.now) }
    ensures err { OnErr result (out.new.items ≡ out.old.items) }
{
    // The buffer grows once, by the most that a line can take.
    let start = out.len();
    out.resize(start + EVENT_ROOM, 0)?;
    let end = write_event(out.as_mut_slice(), start, event);
    out.truncate(end);
    Ok(())
}
