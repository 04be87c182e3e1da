/// What can happen to a session. The numbers are those of RFC 4271 section 8.1.
#[derive(Clone, Copy, Debug, PartialEq, Eq)]
pub enum FsmEvent {
    /// Event 1.
    ManualStart,
    /// Event 2.
    ManualStop,
    /// Event 3: the RestartTimer ran out.
    AutomaticStart,
    /// Event 9.
    ConnectRetryTimerExpires,
    /// Event 10.
    HoldTimerExpires,
    /// Event 11.
    KeepaliveTimerExpires,
    /// Event 16: the connection that this end dialled is open.
    TcpCrAcked,
    /// Event 17: the connection that the peer dialled is open.
    TcpConnectionConfirmed,
    /// Event 18: the peer closed the connection.
    TcpConnectionFails,
    /// Event 19: an OPEN without a fault came.
    BgpOpen {
        /// The hold time that it proposes, in seconds: 0 or at least 3.
        hold: u16,
    },
    /// Event 21: a message with a fault in its header came.
    BgpHeaderErr,
    /// Event 22: an OPEN with a fault came.
    BgpOpenMsgErr,
    /// Event 24: a NOTIFICATION of an unsupported version came (code 2, subcode 1).
    NotifMsgVerErr,
    /// Event 25: any other NOTIFICATION came.
    NotifMsg,
    /// Event 26: a KEEPALIVE came.
    KeepAliveMsg,
    /// Event 27: an UPDATE without a fault came.
    UpdateMsg,
    /// Event 28: an UPDATE with a fault came.
    UpdateMsgErr,
}
