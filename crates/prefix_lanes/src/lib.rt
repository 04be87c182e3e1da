//! Prefixes of IPv4 addresses, and the table of prefixes that finds the longest one that covers.
//!
//! A prefix is a list of at most 32 bits, the first of an address (RFC 4271 section 4.3). Here it is
//! an address whose other bits are zero, and a length, so that equal prefixes are equal values.
//!
//! The one contract: `Prefix::new` keeps exactly the first bits, `covers` says that one list of bits begins the other,
//! and `CoverTable::longest` finds the longest entry that covers a prefix, the first among equals.
//!
//! Nothing here takes memory. Left out: other address families, and the text and wire forms of a prefix.
#![tactic(auto)]

mod cover_table;
mod laws;
mod mask;
mod prefix;

pub use cover_table::{CAPACITY, CoverError, CoverTable};
pub use laws::{
    a_prefix_is_its_bits, constants_are_these, masking_clears_bits, the_longest_is_one,
};
pub use mask::mask_all;
pub use prefix::Prefix;
