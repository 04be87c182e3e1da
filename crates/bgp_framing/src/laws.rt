//! The laws of frames: each is the contract of a function that does nothing but call the laws that
//! its proof rests on. A proof above this crate calls the function whose law it needs.

ghost use Rattle.bgp_framing.specs.Frames.{SplitsOnce, SplitsInPieces, SplitsBehindAFrame, SplitsIntoNothing, RestIs};
ghost use Rattle.bgp_framing.specs.Held.{NextIsFirst, OneNext};

use bgp_codec::laws::header_is_its_front;

/// Each list of octets is one list of frames and one rest that begins with no frame.
pub fn splits_once()
    ensures { SplitsOnce }
{
    header_is_its_front();
}

/// The frames of `a` followed by `b` are those of `a`, then those of `a`'s rest followed by `b`.
pub fn splits_in_pieces()
    ensures { SplitsInPieces }
{}

/// A frame in front is the first of the frames, and the others are those of what stands behind it.
pub fn splits_behind_a_frame()
    ensures { SplitsBehindAFrame }
{
    header_is_its_front();
}

/// Octets that are too few for a message, or begin with a faulty header, have no frame: all of them are the rest.
pub fn splits_into_nothing()
    ensures { SplitsIntoNothing }
{
    header_is_its_front();
}

/// A rest is too short for a header, or a good header with too few octets behind it, or begins with a faulty header.
pub fn rest_is()
    ensures { RestIs }
{
    header_is_its_front();
}

/// A framer answers the first frame of the octets that it holds. It answers no whole message
/// exactly where they have no frame.
pub fn next_is_first()
    ensures { NextIsFirst }
{
    header_is_its_front();
}

/// A framer has one answer for the octets that it holds. After a fault it answers the same fault until `clear`.
pub fn next_is_one()
    ensures { OneNext }
{
    header_is_its_front();
}
