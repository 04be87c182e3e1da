//! Texts of networks and of assignments: their lines, words and refusals; and the lines that messages,
//! paths and checks are printed as.
//!
//! A network text has a line for each router, link, origin, rule and setting; [`read_network`]
//! answers the network that it spells. An assignment text has a line for each path that a router
//! is given for a prefix; [`read_assignment`] answers these. [`split_at_section`] parts a text at
//! the line that is one bare word. A text is refused for its first faulty line, by a [`Code`].
//!
//! [`message_line`] appends the line of a message, [`flight_line`] that of an UPDATE in flight, [`fault_lines`] those
//! of a fault, [`truncated_line`] that of a rest; [`notice_line`] that of a NOTIFICATION by its parts, [`parts_line`]
//! that of an UPDATE by the octets of its parts. [`refused_line`], [`unstable_line`] and [`stable_line`] append the
//! lines of a check of an assignment. [`put_network`] appends the lines of a text as they were read, [`put_comments`]
//! as comments. A refused call leaves the buffer's octets as they were.
//!
//! The definitions stand in `specs/`: `Lexing` (lines and words), `Layout` (how they are laid out), `Words` (what a word
//! stands for and its fault), `Lines` (what a network line adds and its first fault), `Networks` and `Assignments` (whole
//! texts), `Printing` (lines of messages, of paths and of checks), `Comments`. The laws that tie the texts together are
//! the public functions of [`laws`].
//!
//! Readers of other texts stand on the same [`lexing`] and [`words`]. Writers of other lines stand on
//! [`path_line`], [`put_decimal`], [`put_len`], [`put_marked`], [`put_numbers`] and [`put_prefixes`], each of which appends;
//! on [`TextTail`], which appends a line whole or not at all; or, where room for a whole line was made, on [`write_text`],
//! [`write_mark`], [`write_decimal`] and [`write_prefix`], each of which writes at a place and answers the place behind.
//!
//! Left out: schedules, reports of runs, and every use of a network.
#![tactic(auto)]

mod assignment;
mod checks;
mod code;
mod decimals;
mod entries;
pub mod laws;
pub mod lexing;
mod lines;
mod messages;
mod network_lines;
mod network_so_far;
mod notices;
mod numbers;
mod path_lines;
mod paths;
mod prefix_texts;
mod repeats;
mod sections;
mod settings;
mod tail;
mod texts;
mod update_lines;
mod updates;
mod whole_lines;
pub mod words;

pub use assignment::{Entry, read_assignment};
pub use code::{Code, Refused};
pub use decimals::{put_decimal, put_marked, put_numbers, write_decimal};
pub use lines::{
    fault_lines, flight_line, message_line, refused_line, stable_line, truncated_line,
    unstable_line,
};
pub use network_so_far::read_network;
pub use notices::notice_line;
pub use path_lines::path_line;
pub use prefix_texts::{put_prefixes, write_prefix};
pub use sections::{Split, split_at_section};
pub use tail::TextTail;
pub use texts::{put_len, write_mark, write_text};
pub use update_lines::parts_line;
pub use whole_lines::{put_comments, put_network};
