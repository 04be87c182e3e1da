//! One router: its sessions with its peers, and what it puts, takes and handles.
//!
//! Its contract: each call answers, and leaves the router, as `router_model::specs::Calls` says, in
//! every setting of the router's network. The step is done, or there was nothing to do, or it is
//! refused, and then the router is as it was (`specs/Views`). Want of memory is answered only if a
//! growth was refused or the caller has no room (`specs/Calling`), after every other refusal.
//!
//! Each draft is made by value, judged, given room, and then carried out by appends alone
//! (`router_side`). A second in which no timer runs out has no draft, nor has a path that is told,
//! nor a path that is heard in Established while no snapshot is recorded.
//!
//! Left out: the pipes between routers, and who makes the calls, in which order.
#![tactic(auto)]

mod best_path;
mod opening;
mod path_to_tell;
mod peers;
mod router;
mod tables;

pub use outbox::{Item, PieceOctets, What};
pub use router::{Call, Router};
pub use router_model::{Command, RouterError, Stepped};
pub use snap_marker::Offer;
