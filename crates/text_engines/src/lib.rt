//! The engines that read one text and answer it: `decode`, for a stream of BGP-4 messages in hex, and
//! `check`, for paths assigned in a network.
//!
//! An [`Engine`] says what it answers to a text. [`answer_input`] reads the text from a reader, a [`Source`], writes
//! that answer to a writer, a [`Sink`], and answers the status that the program ends with; its contract says exactly
//! what it writes for what it reads. [`answer_by`] does so with a closure, which may start threads. The contract of
//! `bgpnet check` is that of [`answer_input`] over [`CheckEngine`], that of `bgpnet decode`, which reads its input by
//! pieces, that of [`decode_stream`]; the definitions stand in `specs/`: `Decoding` (the text of a stream), `Inputs` (a
//! network and a section behind it), `Checking` (the text of a check), `Engine` (what an engine may leave written),
//! `Digits` (octets in hex), `Hearing` (a stream that is printed as it is read). The lines themselves are `net_text`'s.
//! What every engine shares is here too: [`refused_output`] and [`text_output`] make the answer to a refusal,
//! [`write_output`] writes an answer, and [`put_limit`] says where one is too long to be read again.
#![tactic(auto)]

mod assignments;
mod blanks;
mod channel;
mod check;
mod decode;
mod digits;
mod engine;
mod hex_input;
pub mod laws;
mod movers;
mod refusals;
pub mod status;
mod stream;
mod transfer;

pub use channel::{IoStopped, Sink, Source, Watched};
pub use check::CheckEngine;
pub use decode::decode_stream;
pub use engine::{Engine, answer_by, answer_input};
pub use refusals::{refused_output, text_output};
pub use transfer::{
    INPUT_LIMIT, InputError, put_limit, read_input, want_of_memory, write_out, write_output,
};
