//! Laws that tie an address and a length to the list of bits of a prefix.

ghost use Rattle.prefix_lanes.specs.Covering.{OneLongest};
ghost use Rattle.prefix_lanes.specs.Laws.{HasItsLength, SameBitsSamePrefix, EachListIsAPrefix, MaskedBits, MaskedIsCanonical};
ghost use Rattle.std.specs.Prelude.{◌≡◌};
ghost use Rattle.prefix_lanes.specs.declared.cover_table.TheConstants.{CAPACITY};
ghost use Rattle.prefix_lanes.specs.declared.mask.TheConstants.{ADDRESS_BITS};

/// The prefixes that a `Prefix` can hold are the lists of at most 32 bits, each exactly once.
pub fn a_prefix_is_its_bits()
    ensures length { HasItsLength }
    ensures once { SameBitsSamePrefix }
    ensures each { EachListIsAPrefix }
{}

/// Masking an address keeps its first bits, clears the others, and makes the one form of a prefix.
pub fn masking_clears_bits()
    ensures bits { MaskedBits }
    ensures canonical { MaskedIsCanonical }
{}

/// A list and a prefix have one answer: the place of the longest entry that covers the prefix, or none.
pub fn the_longest_is_one()
    ensures { OneLongest }
{}

/// A table has room for 64 prefixes, and an address has 32 bits.
pub fn constants_are_these()
    ensures capacity { CAPACITY ≡ 64 }
    ensures bits { ADDRESS_BITS ≡ 32 }
{}
