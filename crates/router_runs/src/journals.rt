//! The runs that the journals of routers show.

ghost use Rattle.router_runs.specs.Journals.{CausalOrdersAreRunsOfRouters, TakesOfRoutersHaveTheirPuts};

use run_model::orders::{Routers, causal_orders_are_runs, takes_have_their_puts};

/// The routers of this product's networks, as the laws on orders of events see them. No value of it is made.
pub struct NetworkRouters;

impl Routers for NetworkRouters {
    ghost use Rattle.outbox.specs.declared.item.What.{What};
    ghost use Rattle.snap_marker.specs.Recordings.{MadeOffer};
    ghost use Rattle.router_model.specs.Settings as settings;
    ghost use Rattle.router_model.specs.Step as steps;
    ghost use Rattle.router_runs.specs.Runs.{Logged, LoggedStep};

    ghost Setting = { settings.Setting };

    ghost State = { Logged };

    ghost Own = { steps.Own };

    ghost Item = { What };

    ghost Offer = { MadeOffer };

    ghost step = { LoggedStep };
}

/// Every causal order of the journals of a network's routers is a run of the network (`runs`). What threads did, each
/// router in one of them, is thus a run of routers, and every promise of runs holds of it. In such an order the k-th
/// take of a direction has the item of the k-th put, and stands behind it (`items`).
pub fn causal_orders_are_runs_of_routers()
    ensures runs { CausalOrdersAreRunsOfRouters }
    ensures items { TakesOfRoutersHaveTheirPuts }
{
    causal_orders_are_runs::<NetworkRouters>();
    takes_have_their_puts::<NetworkRouters>();
}
