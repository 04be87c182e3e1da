//! How many octets an AS number has (RFC 4271 section 4.3, RFC 6793).

ghost use Rattle.std.specs.Prelude.{◌≡◌};
ghost use Rattle.bgp_values.specs.Ranges.{greatest_asn};

/// The number of an autonomous system, and so of a router: each router is a system of its own.
pub type Asn = u32;

/// How many octets an AS number has, in a path and in an AGGREGATOR.
#[derive(Clone, Copy, Debug, PartialEq, Eq)]
pub enum Width {
    /// Two octets (RFC 4271).
    Two,
    /// Four octets (RFC 6793): both speakers said that they support them.
    Four,
}

/// The greatest AS number of two octets (RFC 4271 section 4.2).
pub const GREATEST_OF_TWO: u32 = 65_535;

/// The greatest AS number of four octets (RFC 6793 section 4.1).
pub const GREATEST_OF_FOUR: u32 = 4_294_967_295;

/// AS_TRANS: an OPEN has it in place of a number that two octets do not hold (RFC 6793 section 9).
pub const AS_TRANS: u16 = 23_456;

/// The greatest AS number of this width: 65535 or 4294967295.
pub fn greatest_asn(width: Width) -> u32
    ensures { result ≡ greatest_asn width }
{
    match width {
        Width::Two => GREATEST_OF_TWO,
        Width::Four => GREATEST_OF_FOUR,
    }
}
