//! What holds of every run: a law is the contract of a function that does nothing.
ghost use Rattle.model.specs.Promise.{Main};
ghost use Rattle.model.specs.PromiseLaws.{AlwaysProper, AnyOrder, Arrives, Exists, Forgets};
ghost use Rattle.model.specs.PromiseLaws.{NoneRefused, OnlyOne, Settles, Stops};
ghost use Rattle.model.specs.Levels.{HeightsExist};
ghost use Rattle.convergence.specs.Levels.{LowerDecides};
ghost use Rattle.model.specs.Measure.{Falls};

/// Sound ties give every network a height below n, a customer below its provider.
pub fn heights_of_sound_ties()
    ensures { HeightsExist }
{}

/// The one law that carries the rest: what a network tells over a channel depends only on what came
/// over channels of lower level, in whatever order paths of one rank are compared.
pub fn lower_levels_decide()
    ensures { LowerDecides }
{}

/// The stable routing exists: 2n + 1 looks find one in which each network goes by what the others
/// tell.
pub fn stable_routing_exists()
    ensures { Exists }
{}

/// There is only one stable routing.
pub fn stable_routing_is_unique()
    ensures { OnlyOne }
{}

/// From any start, looking in any order ends at the stable routing, if every network looks in each
/// of 2n + 1 stretches.
pub fn any_order_settles()
    ensures { AnyOrder }
{}

/// At every moment of every run each path that is received, advertised, gone by or in flight is
/// proper.
pub fn paths_are_always_proper()
    ensures { AlwaysProper }
{}

/// No update of a run is refused, and whatever is in flight can be heard.
pub fn none_is_refused()
    ensures { NoneRefused }
{}

/// What is left in flight, weighed by the levels of its channels, falls with every move of every
/// run.
pub fn what_is_left_falls()
    ensures { Falls }
{}

/// From every state of every run the telling ends, whichever item is heard next, if links stay as
/// they are.
pub fn telling_ends()
    ensures { Stops }
{}

/// When no update is in flight every network goes by the stable routing, and nothing else is left
/// in any table.
pub fn quiescence_is_stable()
    ensures { Settles }
{}

/// Two states of runs in which no update is in flight and the same links are up hold the same,
/// whatever their past.
pub fn past_is_forgotten()
    ensures { Forgets }
{}

/// When no update is in flight, a packet with enough hops left arrives at its home, after exactly
/// as many steps as its path has networks.
pub fn packets_arrive()
    ensures { Arrives }
{}

/// The whole, of every state of every run: the telling ends, nothing is stuck or refused, it ends
/// at the one stable routing, packets then arrive, and no unpaid path is ever held.
pub fn promise()
    ensures { Main }
{}
