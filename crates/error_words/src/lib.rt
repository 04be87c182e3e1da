//! What the program says in words on the standard error, beside an output that stays as it is: what a refusal means,
//! with the line that is refused, what failed, how an input is given, and what a user may have meant; and which rules of
//! a network that is answered are for nothing.
//!
//! [`said`] says exactly this of how a run ended: each sentence is a definition of `specs/`. It takes the line that was
//! printed last, which [`Ending`] keeps of a writer, and the front of the input, which [`Kept`] keeps of a reader. The
//! definitions: `Meanings` (the sentence of each code), `Faults` (the name of each fault), `Refusals` (the line that a
//! refusal names), `Places` (where it stands, and which line says the same), `Spelling` (which of its words is faulty),
//! `Reasons` (why it is refused), `Advice` (what to write), `Hints` (what a user may have meant), `Warnings` (what is said
//! of rules), `Saying` (the whole text). All but `Warnings` look at words as they are spelt: the number 01 is not found to
//! be 1, and then the sentence of the code is said.
#![tactic(auto)]

mod advice;
mod ending;
mod faults;
mod hints;
mod kept;
pub mod laws;
mod meanings;
mod places;
mod reasons;
mod refusals;
mod saying;
mod showing;
mod spelling;
mod tables;
mod usage;
mod warnings;

pub use ending::Ending;
pub use hints::Hint;
pub use kept::Kept;
pub use meanings::meaning_at;
pub use places::Place;
pub use reasons::MOST_COMPARED;
pub use refusals::{line_at, refusal_of};
pub use saying::{End, said};
pub use showing::MOST_SHOWN;
pub use usage::bound_of;
pub use warnings::MOST_WARNED;
