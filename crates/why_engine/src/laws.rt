//! Laws of the definitions. The contract of each function is the law.

ghost use Rattle.why_engine.specs.Laws.{EachRouterHasOneText};

/// The text printed of the router of a number, or that there is none, is a function of that number, of the network and
/// of the world.
pub fn each_router_has_one_text()
    ensures { EachRouterHasOneText }
{}
