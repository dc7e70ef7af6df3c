// The blocks of addresses and their homes, by block.
ghost use Rattle.std.specs.Prelude.{◌≡◌, vec_len};
ghost use Rattle.blocks.specs.Ranges.{Orderly};
ghost use Rattle.blocks.specs.declared.block_list.Unfit.TheVariants.{Memory};

use std::alloc::AllocError;
use text::Address;

mod methods;

pub use methods::MOST;

/// A block: the addresses from a first to a last, both of these too, and the network that is their home.
#[derive(Clone, Copy, Debug, PartialEq, Eq)]
pub struct Block {
    pub first: Address,
    pub last: Address,
    pub home: u8,
}

/// At most `MOST` blocks in rising order, no two of which share an address. Block k is the one at place k, from 0.
#[derive(Drop)]
pub struct BlockList {
    firsts: Vec<u32>,
    lasts: Vec<u32>,
    homes: Vec<u8>,
    ghost orderly: { Orderly firsts.items lasts.items },
    ghost homed: { vec_len homes ≡ vec_len firsts },
}

/// Why a block may not stand after those of a list.
#[derive(Clone, Copy, Debug, PartialEq, Eq)]
pub enum Unfit {
    /// it does not begin above the block before
    NotRising,
    /// its first address is above its last
    Turned,
    /// there are 256 blocks
    TooMany,
    /// it shares an address with the block before
    Overlap,
    /// memory could not be had; the block may be right
    Memory,
}

impl From<AllocError> for Unfit {
    ghost from_gives = { λ _ r. r ≡ Memory };

    fn from(_e: AllocError) -> Unfit {
        Unfit::Memory
    }
}
