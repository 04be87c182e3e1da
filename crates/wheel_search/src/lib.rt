//! Whether a network has a dispute wheel for a prefix (Griffin, Shepherd and Wilfong 2002, section 4).
//!
//! [`dispute_wheel`] answers that there is none, or a wheel, rim by rim. The one contract: an answer "safe" means that
//! the feasible paths have numbers that fall along a path and do not rise towards a better one; a printed wheel is one,
//! and each of its rims goes on by a path that its router likes better than the spoke.
//!
//! The paths of a router stand in a row, the best first: those that its rule lists, or an origin's own. A path is let go
//! once the better ones of its row and its rest were. If all can be let go, there is no wheel. Else some rows hold one
//! another in a circle: the rest of the first path that a row could not let go stands in the next row, where it was not
//! let go. That circle is the wheel, without the rows whose path is the rest itself.
//!
//! Where no router has a rule each path hangs on shorter ones alone, and there is no wheel. Where some routers have one
//! and others have none, the feasible paths of those are listed, the shorter first: each is a router in front of a path
//! of a peer. Only such are that are no longer than the longest rest of a rule's path which begins with a router without
//! a rule: a longer one hangs on shorter ones or on listed ones, so it is in no circle. Where a router has more than a
//! limit the search refuses.
//!
//! The definitions stand in `specs/`: `Found` (what is answered and refused), `Lists` (feasible paths by length),
//! `Rows` (the paths of each router), `Chains` (where those of a row stand), `Waits` (what a path waits for), `Letting`
//! (what was let go, and what holds what) and `Rims` (the rims of a circle).
//!
//! Left out: what it means that there is no wheel, which is `dispute_wheels`'; texts.
#![tactic(auto)]

mod chain;
mod letting;
mod listing;
mod refusal;
mod rim;
mod rims;
mod row;
mod search;
mod wait;

pub use refusal::WheelError;
pub use rim::{Rim, Safety};
pub use search::dispute_wheel;
