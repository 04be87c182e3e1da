//! Texts of schedules, and the lines that a run is reported by.
//!
//! A schedule text has a line for each [`world_core::Order`]: an event of a router, or so many
//! rounds or ticks of all of them. [`read_schedule`] answers the orders that it spells, each with
//! its line, or the first faulty line with its [`net_text::Code`].
//!
//! [`event_line`] appends the order of an event, [`snapshot_line`] how a snapshot came out, [`now_line`] the heading of
//! the routes at the end, and [`route_line`] a router's path for a prefix. [`put_router`] appends the routes that a
//! router keeps, [`put_parts`] those that the routers recorded in a snapshot. [`cut_line`] and [`cut_none_line`]
//! append where a snapshot cuts the events of a run, [`stop_line`] that a run refused the order of a line, a
//! [`RefusedOrder`]. A refused call leaves the buffer's octets as they were.
//!
//! The definitions stand in `specs/`: `Schedules` (keywords, their operands, whole texts), `Keywords` (keywords by their
//! first octet), `Sayings` (which words say which order), `Events` (the line of an event), `Reports` (lines of a run),
//! `Routes` (the routes of a run), `Obeying` (where orders lead, and the first that is refused). [`laws`] has what they
//! say together.
//!
//! Left out: to obey orders.
#![tactic(auto)]

mod event;
mod keyword;
pub mod laws;
mod operands;
mod parts;
mod report;
mod routes;
mod schedule;

pub use event::event_line;
pub use parts::put_parts;
pub use report::{
    RefusedOrder, cut_line, cut_none_line, now_line, route_line, snapshot_line, stop_line,
};
pub use routes::put_router;
pub use schedule::{ScheduledOrder, read_schedule};
