//! The rule under which messages are read.

pub use bgp_values::Asn;
use bgp_values::Width;

/// What the reader knows of the speaker, and of itself.
#[derive(Clone, Copy, Debug, PartialEq, Eq)]
pub struct Rule {
    /// How many octets an AS number has.
    pub width: Width,
    /// The speaker's number, where its OPEN and its paths are to be checked against it.
    pub peer: Option<Asn>,
    /// The reader's own number, if an OPEN has to say its speaker's number in four octets (RFC 6793 section 3). The
    /// data of the fault of an OPEN that does not say it have this number. Under [`Width::Two`] it has no effect.
    pub own: Option<Asn>,
}

/// The rule of two-octet numbers that names nobody.
pub const NOBODY: Rule = Rule {
    width: Width::Two,
    peer: None,
    own: None,
};
