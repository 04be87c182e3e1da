/// The states of a session (RFC 4271 section 8.2.2).
#[derive(Clone, Copy, Debug, PartialEq, Eq)]
pub enum State {
    /// No connection is wanted.
    Idle,
    /// A connection is dialled.
    Connect,
    /// A connection is wanted, and none is dialled until the ConnectRetryTimer runs out.
    Active,
    /// Connected: the OPEN is sent, the peer's is awaited.
    OpenSent,
    /// The peer's OPEN is accepted, its KEEPALIVE is awaited.
    OpenConfirm,
    /// UPDATEs are exchanged.
    Established,
}
