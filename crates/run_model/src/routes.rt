//! Routes of a settled snapshot.
ghost use Rattle.run_model.specs.Routes.{NetworkRunsGoOn, SettledIsStable};

/// A run of the network, and then events that are a run from where it ends, make a longer run.
pub fn network_runs_go_on<M, P, W>()
    ensures { NetworkRunsGoOn M P W }
{}

/// The recorded paths of a settled snapshot are a stable assignment, for each prefix of the network.
///
/// Premises: links lead both ways, from a router to another one of the network (`IsNetwork`); each event is one that
/// `MayHappen` allows. It does not say that a snapshot settles, nor which stable assignment is found.
pub fn settled_is_stable<M, P, W>()
    ensures { SettledIsStable M P W }
{}
