//! What no row of `program_rows` shows of the program: reads and writes that fail, the examples of its helps,
//! gates, records that are played back, traces of rounds and of their events, and the tasks that words ask for;
//! and the laws of the engines.

mod failures;
mod gates;
mod helps;
mod laws;
mod records;
mod tasks;
mod traces;
