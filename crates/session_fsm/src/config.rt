//! The settings of a session.

/// The settings of a session, which it is told once, at its beginning.
#[derive(Clone, Copy, Debug, PartialEq, Eq)]
pub struct SessionConfig {
    /// The hold time that this end's OPEN proposes, in seconds: one that passes
    /// [`is_hold_time`](bgp_values::is_hold_time) (RFC 4271 section 4.2). 0 asks for no KEEPALIVEs at all.
    pub hold: u16,
    /// Seconds until a session that closed starts again by itself, 0 for never. The project's own.
    pub restart: u16,
}
