//! What holds of hearing until nothing is in flight: a law is the contract of a function that does
//! nothing.
ghost use Rattle.std.specs.Prelude.{◌≡◌};
ghost use Rattle.simulation.specs.Resting.{RestHears};
ghost use Rattle.simulation.specs.declared.simulation.hearing.TheConstants.{MOST_UPDATES};
ghost use Rattle.simulation.specs.declared.simulation.making.TheConstants.{MOST_BLOCKS, MOST_NETWORKS};

/// What is heard then, the lowest pair first, is heard in the sense of the laws on packets, which
/// hold of every order.
pub fn rest_hears()
    ensures { RestHears }
{}

/// The limits of a rehearsal are those that people are told: 16 networks, 64 blocks, and 4,096
/// updates in flight after a step.
pub fn limits_as_told()
    ensures networks { MOST_NETWORKS ≡ 16 }
    ensures blocks { MOST_BLOCKS ≡ 64 }
    ensures updates { MOST_UPDATES ≡ 4096 }
{}
