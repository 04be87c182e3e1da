//! The fields of a header.

/// What a good header says (RFC 4271 section 4.1).
#[derive(Clone, Copy, Debug, PartialEq, Eq)]
pub struct Header {
    /// The length of the whole message in octets, `HEADER_LEN` to `MESSAGE_LIMIT`.
    pub len: u16,
    /// The type: `OPEN`, `UPDATE`, `NOTIFICATION` or `KEEPALIVE`.
    pub kind: u8,
}
