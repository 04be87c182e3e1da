//! The limits of a network. Definitions, readers of texts and the crates above take them from here.

use bgp_values::MESSAGE_LIMIT;

/// The most routers of a network.
pub const MOST_ROUTERS: usize = 64;

/// The most links of a router.
pub const MOST_LINKS: usize = 16;

/// The most prefixes that a network names.
pub const MOST_PREFIXES: usize = 256;

/// The most rules of a router.
pub const MOST_RULES: usize = 64;

/// The most paths of a rule.
pub const MOST_PATHS: usize = 32;

/// The most routers of a permitted path.
pub const LONGEST_PATH: usize = 16;

/// The most octets that pass a link in one piece: a message has no more.
pub const GREATEST_CUT: usize = MESSAGE_LIMIT;

/// The most items that a pipe holds.
pub const GREATEST_PIPE: usize = 1_024;
