// Why a block file is refused, and where.
ghost use Rattle.std.specs.Prelude.{◌≡◌};
ghost use Rattle.blocks.specs.Unfit.{refusal_at};

use crate::block_list::Unfit;
use text::Fault;

/// What is wrong with one thing of the file.
#[derive(Clone, Copy, Debug, PartialEq, Eq)]
pub enum Cause {
    /// the file does not begin with 17
    UnknownKind,
    /// the bytes end within a thing
    Cut,
    /// bytes follow the last block
    Surplus,
    /// a home is a network that there is not
    NoSuchNetwork,
    /// a block does not begin above the one before it
    NotRising,
    /// the first address of a block is above its last
    Turned,
    /// more than 256 blocks
    TooMany,
    /// a block shares an address with an earlier one
    Overlap,
    /// more blocks than the caller allows
    TooManyRehearsed,
}

/// The things of a block file.
#[derive(Clone, Copy, Debug, PartialEq, Eq)]
pub enum Place {
    Head,
    Block(u16),
    End,
}

/// Why a block file is not read; shown as `fault 4 at block 1: blocks that overlap`.
#[derive(Debug, Drop)]
pub enum Refusal {
    /// the first thing with a fault, and the cause that has the lowest number
    Fault(Fault<Place, Cause>),
    /// memory could not be had; the file may be sound
    Memory,
}

impl Refusal {
    // Why a block is refused that may not stand after those before it.
    pub(crate) fn at_block(block: u16, unfit: Unfit) -> Refusal
        ensures { result ≡ refusal_at block unfit }
    {
        let cause = match unfit {
            Unfit::NotRising => Cause::NotRising,
            Unfit::Turned => Cause::Turned,
            Unfit::TooMany => Cause::TooMany,
            Unfit::Overlap => Cause::Overlap,
            Unfit::Memory => return Refusal::Memory,
        };
        let place = Place::Block(block);
        Refusal::Fault(Fault { place, cause })
    }
}
