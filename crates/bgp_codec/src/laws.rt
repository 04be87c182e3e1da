//! The laws of the definitions: each is the contract of a function with an empty body. A proof
//! above this crate calls the function whose law it needs.

ghost use Rattle.bgp_codec.specs.Header.{HeaderIsItsFront, HeaderFaultIsShort};
ghost use Rattle.bgp_codec.specs.Spelling.{WrittenHasAHeader, OpenHasAHoldTime};
ghost use Rattle.bgp_codec.specs.Faults.{OneMessageOrFault, FaultFitsAMessage, WrittenIsSpelt, WrittenIsRead, PeersWritingIsRead, SpeltIsWritable};

use prefix_lanes::{a_prefix_is_its_bits, masking_clears_bits};

/// A frame has a message exactly where it has no fault, and then only one.
pub fn one_message_or_fault()
    ensures { OneMessageOrFault }
{
    a_prefix_is_its_bits();
    masking_clears_bits();
}

/// A message that is writable and fits 4096 octets is written as a spelling of itself, under a rule that names nobody.
pub fn written_is_spelt()
    ensures { WrittenIsSpelt }
{}

/// A message that is writable and fits 4096 octets is written as a frame, which reads as that
/// message, under a rule that names nobody.
pub fn written_is_read()
    ensures { WrittenIsRead }
{
    a_prefix_is_its_bits();
    masking_clears_bits();
}

/// A message of a peer is written as a frame, which reads as that message under a rule that names the peer. The message
/// has to be writable, to fit 4096 octets, and to have the peer's number or path.
pub fn a_peers_writing_is_read()
    ensures { PeersWritingIsRead }
{
    a_prefix_is_its_bits();
    masking_clears_bits();
}

/// A message that some octets spell is writable under their rule, and is written in no more octets
/// than those. Each message that was read can be written.
pub fn spelt_is_writable()
    ensures { SpeltIsWritable }
{}

/// What is written for a message has the nineteen octets of a header, and those of its body.
pub fn written_has_a_header()
    ensures { WrittenHasAHeader }
{}

/// The hold time of a writable OPEN is 0 seconds, or 3 and more: a session takes it. By
/// `spelt_is_writable` that holds for every OPEN that was read.
pub fn open_has_a_hold_time()
    ensures { OpenHasAHoldTime }
{}

/// The checks of a header and its Length look at the first nineteen octets alone.
pub fn header_is_its_front()
    ensures { HeaderIsItsFront }
{}

/// The data of a header's fault has at most two octets.
pub fn header_fault_is_short()
    ensures { HeaderFaultIsShort }
{}

/// The NOTIFICATION of every fault of a frame fits a message: its data has at most `MOST_DATA` octets.
pub fn fault_fits_a_message()
    ensures { FaultFitsAMessage }
{}
