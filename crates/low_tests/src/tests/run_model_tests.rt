//! Types at which each law of runs is called, and small networks of which it is known what holds.
ghost use Rattle.std.specs.Prelude.{◌≡◌, length, List, ℕ};

pub(super) mod orders;

use run_model::Framing;

/// Frames of one octet.
pub(super) struct OneOctet;

impl Framing for OneOctet {
    ghost is_frame = { λ octets. length octets ≡ 1 };
}
