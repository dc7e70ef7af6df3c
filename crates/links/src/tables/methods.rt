//! Making and reading the tables.
ghost use Rattle.std.specs.Prelude.{◌≡◌, ◌<◌, ◌≤◌, MatchOption, MatchResult, slice_index_or};
ghost use Rattle.std.specs.Option.{option_map};
ghost use Rattle.model.specs.Paths.{path_over};
ghost use Rattle.selection.specs.declared.table.methods.TheConstants.{MOST_BLOCKS};
ghost use Rattle.selection.specs.Paths.{row};
ghost use Rattle.advertisement.specs.Updates.{block_of, said};
ghost use Rattle.links.specs.Held.{audiences_of, blocks_of};
ghost use Rattle.links.specs.Made.{Fresh, IfTooLarge, Same};

use crate::creation_error::CreationError;
use crate::tables::Tables;
use advertisement::{Update, update_of};
use selection::{MOST_BLOCKS, NetworkSet, PathTable};
use std::alloc::{AllocError, Global};

// Tables of their own that hold the same. By hand, since beside a ghost field it is derived only
// for a `Copy` type.
impl Clone for Tables {
    ghost is_clone = { Same };

    fn clone(&self) -> Result<Tables, AllocError> {
        let received = self.received.clone()?;
        let advertised = self.advertised.clone()?;
        let audiences = self.audiences.clone()?;
        Ok(Tables {
            received,
            advertised,
            audiences,
        })
    }
}

impl Tables {
    /// Tables of so many blocks, in which nothing was received or advertised.
    ///
    /// # Errors
    /// There are more than 256 blocks, or memory could not be had.
    pub fn new(heap: Global, blocks: u16) -> Result<Tables, CreationError>
        ensures { MatchResult result (Fresh blocks) (IfTooLarge (MOST_BLOCKS < blocks)) }
    {
        if blocks > MOST_BLOCKS {
            return Err(CreationError::TooLarge);
        }
        let received = PathTable::new(heap, blocks)?;
        let advertised = PathTable::new(heap, blocks)?;
        let audiences = vec![in heap; NetworkSet::none(); blocks as usize]?;
        Ok(Tables {
            received,
            advertised,
            audiences,
        })
    }

    /// How many blocks there are.
    pub fn blocks(&self) -> u16
        ensures { result ≡ blocks_of self.now }
    {
        self.received.blocks()
    }

    /// Who was to be told of a block when a link turned last, if there is such a block.
    pub fn audience(&self, block: u16) -> Option<NetworkSet>
        ensures none { MatchOption result (blocks_of self.now ≤ block)
            (λ _. block < blocks_of self.now) }
        ensures some { MatchOption result (Unit {0})
            (λ a. a ≡ slice_index_or (audiences_of self.now) block a) }
    {
        self.audiences.get(block as usize).copied()
    }

    /// Who was to be told of each block when a link turned last.
    pub fn audiences(&self) -> &[NetworkSet]
        ensures { result.now ≡ audiences_of self.now }
    {
        &self.audiences
    }

    /// What was told a neighbour last of a block, as the part of the table where it stands.
    pub fn told(&self, block: u16, neighbour: u8) -> Option<&[u8]>
        ensures { option_map (λ x. path_over x.now) result
            ≡ row self.now.advertised block neighbour }
    {
        self.advertised.path(block, neighbour)
    }

    /// What was told a neighbour last of a block, as the update that tells it.
    pub fn update(&self, block: u16, neighbour: u8) -> Update
        ensures block { block_of result ≡ block }
        ensures says { said result ≡ row self.now.advertised block neighbour }
    {
        update_of(&self.advertised, block, neighbour)
    }
}
