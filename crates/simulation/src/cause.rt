//! Why a step is not played.
ghost use Rattle.std.specs.Prelude.{◌≡◌};
ghost use Rattle.simulation.specs.declared.cause.Refusal.TheVariants.{Fault, Memory};

use std::alloc::AllocError;

/// What is wrong with a step.
#[derive(Clone, Copy, Debug, PartialEq, Eq)]
pub enum Cause {
    /// a network that there is not
    NoSuchNetwork,
    /// a hearing where nothing is in flight
    NothingInFlight,
    /// a turn of a link between networks that are not related
    NoLink,
    /// more updates would be in flight than there is room for
    TooMany,
}

/// Why a step is not played: for a cause, or for want of memory.
#[derive(Clone, Copy, Debug, PartialEq, Eq)]
pub enum Refusal {
    /// something is wrong with the step
    Fault(Cause),
    /// memory could not be had; the step may be played later
    Memory,
}

impl From<Cause> for Refusal {
    ghost from_gives = { λ cause r. r ≡ Fault cause };

    fn from(cause: Cause) -> Refusal {
        Refusal::Fault(cause)
    }
}

impl From<AllocError> for Refusal {
    ghost from_gives = { λ _ r. r ≡ Memory };

    fn from(_e: AllocError) -> Refusal {
        Refusal::Memory
    }
}
