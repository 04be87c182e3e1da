//! Which numbers the constants are.

ghost use Rattle.bgp_values.specs.Numbers.{OfMessages, OfAttributes, OfFaults, OfSpeakers};

/// Each constant is the number that the standard has in the section named beside the literal.
pub fn constants_are_the_standards()
    ensures messages { OfMessages }
    ensures attributes { OfAttributes }
    ensures faults { OfFaults }
    ensures speakers { OfSpeakers }
{}
