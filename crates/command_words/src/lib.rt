//! The words behind the program's name.
//!
//! [`read_words`] says what they ask for: a [`Task`] that starts no thread, a run of threads, or a text, which is a help
//! or what is wrong with the words. No clause says which words ask for which task: tests do. [`laws`] has the numbers
//! that words leave out.
#![tactic(auto)]

mod asked;
mod helps;
pub mod laws;
mod words;

pub use asked::{Asked, Task, ThreadNumbers};
pub use helps::{
    CHECK_HELP, CUT_HELP, DECODE_HELP, PLAY_HELP, RECORD_HELP, RUN_HELP, SAFE_HELP, STABLE_HELP,
    TOP_HELP, TRACE_HELP, WHY_HELP,
};
pub use words::read_words;
