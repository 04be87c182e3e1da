//! A prefix of a network.

ghost use Rattle.std.specs.Prelude.{◌≡◌, true};
ghost use Rattle.ranked_policy.specs.Plans.{IsNamed};

use prefix_lanes::Prefix;
use ranked_policy::Network;
use std::marker::Model;

/// A prefix of a network, whose origin originates it. Assignments of paths are judged by it.
#[derive(Debug, Drop)]
pub struct Instance<'a> {
    network: &'a Network,
    prefix: Prefix,
}

impl<'a> Model for Instance<'a> {
    ghost use Rattle.std.specs.Prelude.{true};
    ghost use Rattle.stable_paths.specs.Stable.{Problem, IsInstance};

    ghost Value = { Problem };

    ghost view = { λ i. record { net = i.network.now; prefix = i.prefix; originated = true } };

    ghost invariant = { λ i. IsInstance (record { net = i.network.now; prefix = i.prefix; originated = true }) };
}

impl<'a> Instance<'a> {
    ghost use Rattle.stable_paths.specs.Stable.{IsInstance};

    /// The instance of a prefix that the network names.
    pub fn new(network: &'a Network, prefix: &Prefix) -> Instance<'a>
        requires { IsNamed network.now.origins prefix.now }
        ensures { result ≡ record { net = network.now; prefix = prefix.now; originated = true } }
    {
        let _routers = network.routers();
        Instance {
            network,
            prefix: *prefix,
        }
    }

    /// The network.
    pub fn network(&self) -> &'a Network
        ensures value { result.now ≡ self.now.net }
        ensures problem { IsInstance self.now }
    {
        self.network
    }

    /// The prefix.
    pub fn prefix(&self) -> &Prefix
        ensures value { result.now ≡ self.now.prefix }
        ensures problem { IsInstance self.now }
    {
        &self.prefix
    }
}
