// Why a ties file is refused, and where.
ghost use Rattle.std.specs.Prelude.{◌≡◌};
ghost use Rattle.ties.specs.Unsound.{refusal_of};
ghost use Rattle.ties.specs.declared.refusal.Refusal.TheVariants.{Memory};

use cycles::Unsound;
use std::alloc::AllocError;
use text::Fault;

/// What is wrong with one thing of the file.
#[derive(Clone, Copy, Debug, PartialEq, Eq)]
pub enum Cause {
    /// the file does not begin with 16, or a tie's kind is neither 1 nor 2
    UnknownKind,
    /// the bytes end within a thing
    Cut,
    /// bytes follow the last tie
    Surplus,
    /// a tie names a network that there is not
    NoSuchNetwork,
    /// no network at all, or more than 64
    BadCount,
    /// a tie does not come after the one before it
    NotRising,
    /// two ties of one pair
    SamePair,
    /// peers with the higher number first
    PeersTurned,
    /// a network tied to itself
    Itself,
    /// more networks than the caller allows
    TooMany,
}

/// The things of a ties file.
#[derive(Clone, Copy, Debug, PartialEq, Eq)]
pub enum Place {
    Head,
    Tie(u16),
    End,
}

/// Why a ties file is not read; shown as `fault 3 at tie 4: two ties of one pair`.
#[derive(Debug, Drop)]
pub enum Refusal {
    /// the first thing with a fault, and the cause that has the lowest number
    Fault(Fault<Place, Cause>),
    /// the cycle of customers that is told; the villages call it a ring
    Cycle(Vec<u8>),
    /// memory could not be had; the file may be sound
    Memory,
}

impl From<AllocError> for Refusal {
    ghost from_gives = { λ _ r. r ≡ Memory };

    fn from(_e: AllocError) -> Refusal {
        Refusal::Memory
    }
}

// Why a table that was read is not taken.
impl From<Unsound> for Refusal {
    ghost from_gives = { λ e r. r ≡ refusal_of e };

    fn from(e: Unsound) -> Refusal {
        match e {
            Unsound::Cycle(ring) => Refusal::Cycle(ring),
            Unsound::Memory => Refusal::Memory,
        }
    }
}
