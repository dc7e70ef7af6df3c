//! Making, reading and writing the table.
ghost use Rattle.std.specs.Prelude.{◌≡◌, false, ℕ, ◌+◌, ◌≤◌, min, ◌&&◌, ◌∷◌, ◌++◌, length, IfOk, Some};
ghost use Rattle.std.specs.Prelude.{None, MatchBool, nat_le, nat_lt};
ghost use Rattle.std.specs.Option.{option_map};
ghost use Rattle.model.specs.Paths.{path_over};
ghost use Rattle.model.specs.declared.limits.TheConstants.{MOST_NETWORKS};
ghost use Rattle.selection.specs.declared.table.methods.TheConstants.{MOST_BLOCKS};
ghost use Rattle.selection.specs.Changes.{Blank, ChangesRow, has_row};
ghost use Rattle.selection.specs.Paths.{count, row};
ghost use Rattle.selection.specs.Rows.{said, without};

use crate::table::PathTable;
use crate::table::row::Row;
use relations::MOST;
use std::alloc::{AllocError, Global};

/// The most blocks that a table has rows for.
pub const MOST_BLOCKS: u16 = 256;

// A table of its own that says the same. By hand, since beside a ghost field it is derived only for
// a `Copy` type.
impl Clone for PathTable {
    ghost is_clone = { λ t u. (count u ≡ count t) × ((b j : ℕ) → row u b j ≡ row t b j) };

    fn clone(&self) -> Result<PathTable, AllocError> {
        // at once, where `clone` goes block by block
        let mut blocks = Vec::with_capacity(*self.blocks.allocator(), self.blocks.len())?;
        blocks.extend_from_slice(&self.blocks)?;
        Ok(PathTable { blocks })
    }
}

impl PathTable {
    /// No path is told. Of more than 256 blocks the first 256 are taken.
    ///
    /// # Errors
    /// Memory could not be had.
    pub fn new(heap: Global, blocks: u16) -> Result<PathTable, AllocError>
        ensures { IfOk result (Blank (min blocks MOST_BLOCKS)) }
    {
        PathTable::empty(heap, blocks.min(MOST_BLOCKS))
    }

    // The same of at most 256 blocks.
    fn empty(heap: Global, blocks: u16) -> Result<PathTable, AllocError>
        requires { blocks ≤ MOST_BLOCKS }
        ensures { IfOk result (Blank blocks) }
    {
        let blocks = vec![in heap; [Row::empty(); 64]; blocks as usize]?;
        Ok(PathTable { blocks })
    }

    /// How many blocks there are.
    pub fn blocks(&self) -> u16
        ensures { result ≡ count self.now }
    {
        self.blocks.len() as u16
    }

    /// The path for `block` that `neighbour` told, as the part of the table where it stands.
    pub fn path(&self, block: u16, neighbour: u8) -> Option<&[u8]>
        ensures { option_map (λ x. path_over x.now) result ≡ row self.now block neighbour }
    {
        let rows = self.blocks.get(block as usize)?;
        rows.get(neighbour as usize)?.path()
    }

    /// From now on `path` is the path for `block` that `neighbour` told. False, and nothing done,
    /// for a path of no network or of more than 64, and for a block or a neighbour that there is
    /// not.
    pub fn set(&mut self, block: u16, neighbour: u8, path: &[u8]) -> bool
        ensures test { result
            ≡ (has_row self.old block neighbour && nat_lt 0 (length path.now)
            && nat_le (length path.now) MOST_NETWORKS) }
        ensures same { count self.new ≡ count self.old }
        ensures after { MatchBool result
            (ChangesRow self.old self.new block neighbour (Some (path_over path.now)))
            (self.new ≡ self.old) }
    {
        !path.is_empty() && self.write(block, neighbour, &[], path)
    }

    /// From now on `first`, followed by `path`, is the path for `block` that `neighbour` told.
    /// False, and nothing done, for a path of 64 networks or more, and for a block or a neighbour
    /// that there is not.
    pub fn set_in_front(&mut self, block: u16, neighbour: u8, first: u8, path: &[u8]) -> bool
        ensures test { result
            ≡ (has_row self.old block neighbour && nat_lt (length path.now) MOST_NETWORKS) }
        ensures same { count self.new ≡ count self.old }
        ensures after { MatchBool result
            (ChangesRow self.old self.new block neighbour (Some (path_over (first ∷ path.now))))
            (self.new ≡ self.old) }
    {
        self.write(block, neighbour, &[first], path)
    }

    /// From now on `neighbour` told nothing for `block`. Nothing is done for a block or a neighbour
    /// that there is not.
    #[tactic(auto, using(crate::proofs::Written::none_written))]
    pub fn clear(&mut self, block: u16, neighbour: u8)
        ensures same { count self.new ≡ count self.old }
        ensures after { ChangesRow self.old self.new block neighbour None }
        ensures kept { has_row self.old block neighbour ≡ false → self.new ≡ self.old }
    {
        self.write(block, neighbour, &[], &[]);
    }

    /// From now on `neighbour` told nothing for any block.
    pub fn forget(&mut self, neighbour: u8)
        ensures same { count self.new ≡ count self.old }
        ensures after { (b j : ℕ) → row self.new b j ≡ without (row self.old) neighbour b j }
    {
        // over numbers, since `clear` names its row by them
        for block in 0..self.blocks() {
            self.clear(block, neighbour);
        }
    }

    // Writes `head` and then `path` into the row of `block` and `neighbour`; of no network, nothing
    // was told. False, and nothing done, where they are more than 64, and for a block or a
    // neighbour that there is not.
    #[tactic(auto, using(crate::proofs::Written::row_written))]
    fn write(&mut self, block: u16, neighbour: u8, head: &[u8], path: &[u8]) -> bool
        requires { length head.now ≤ MOST_NETWORKS }
        ensures test { result
            ≡ (has_row self.old block neighbour
            && nat_le (length head.now + length path.now) MOST_NETWORKS) }
        ensures same { count self.new ≡ count self.old }
        ensures after { MatchBool result
            (ChangesRow self.old self.new block neighbour (said (head.now ++ path.now)))
            (self.new ≡ self.old) }
    {
        if block >= self.blocks() || neighbour >= MOST || path.len() > MOST as usize - head.len() {
            return false;
        }
        let rows = &mut self.blocks[block as usize];
        let row = &mut rows[neighbour as usize];
        row.write(head, path);
        true
    }
}
