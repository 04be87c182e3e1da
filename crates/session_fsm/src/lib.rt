//! The session machine of BGP-4 (RFC 4271 section 8): states, events, timers, and what each event asks of the router.
//!
//! A session takes events and ticks, one a second, and answers actions; it sends nothing and takes
//! no memory. The caller carries the actions out in their order, and gives it each event that comes,
//! among them those that a tick answers.
//!
//! The one contract: `on` is the table of section 8.2.2, and `tick` counts the timers down. The laws say what holds
//! over every list of events and ticks.
//!
//! Left out: DelayOpen, PassiveTcpEstablishment, DampPeerOscillations, IdleHoldTimer,
//! SendNOTIFICATIONwithoutOPEN, jitter, the ConnectRetryCounter, and collision detection (section
//! 6.8). The project's own are the RestartTimer, by which a closed session starts again, and the rows
//! that docs/SESSION.md marks.
#![tactic(auto)]

mod actions;
mod config;
mod event;
mod laws;
mod session;
mod state;

pub use actions::{Action, Actions};
pub use config::SessionConfig;
pub use event::FsmEvent;
pub use laws::{
    constants_are_these, each_timer_runs_in_its_states, hold_time_zero_never_expires,
    hold_timer_expires_after_silence, leaving_for_idle_hangs_up, nothing_is_acted_on_after_a_close,
    restart_waits_for_a_start, timers_run_out_in_their_last_second, up_and_down_take_turns,
    updates_act_in_established_alone,
};
pub use session::Session;
pub use state::State;
