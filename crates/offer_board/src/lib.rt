//! The board of offers: a collector of snapshots that many workers share under one lock.
//!
//! Its one contract: each change is one call of [`BoardState::offer`], whose contract says all that it does. Whoever
//! takes the lock finds a board whose collector has what was offered, in the order of rising stamps.
//!
//! Left out: the lock, and who holds it.
#![tactic(auto)]

mod board;
mod same;

pub use board::{BoardState, Made, two_copies};
pub use same::{made_by_same, same_offer};
pub use snap_collector::{CollectError, Taken};
