//! What is at hand as an event comes.

use bgp_codec::{Notice, Update};

/// What came with an event.
#[derive(Debug, Drop)]
pub enum Brought {
    /// Nothing.
    Nothing,
    /// A fault, as the NOTIFICATION that tells of it.
    Fault(Notice),
    /// An UPDATE.
    Update(Update),
}
