// What a list of blocks says and lends, and how it grows.
ghost use Rattle.std.specs.Prelude.{◌≡◌, ◌<◌, ◌≤◌, [], ◌∷◌, ◌++◌, length, OnErr, OnOk, MatchOption, MatchResult, slice_index, vec_items, vec_len};
ghost use Rattle.blocks.specs.Fit.{Pushed, Same, unfit};
ghost use Rattle.blocks.specs.Shown.{IsBlockAt, count_of, firsts_of, homes_of, lasts_of, lent_firsts, lent_lasts};

use crate::block_list::{Block, BlockList, Unfit};
use crate::blocks::Blocks;
use std::alloc::{AllocError, Global};
use text::Address;

/// The most blocks that there may be.
pub const MOST: u16 = 256;

impl BlockList {
    /// No blocks.
    pub fn new(heap: Global) -> BlockList
        ensures firsts { firsts_of result ≡ [] }
        ensures lasts { lasts_of result ≡ [] }
        ensures homes { homes_of result ≡ [] }
    {
        BlockList {
            firsts: Vec::new(heap),
            lasts: Vec::new(heap),
            homes: Vec::new(heap),
        }
    }

    /// How many blocks there are.
    pub fn len(&self) -> u16
        ensures { result ≡ count_of self.now }
    {
        self.firsts.len() as u16
    }

    /// Block `block`, counted from 0; none past the last.
    pub fn block(&self, block: u16) -> Option<Block>
        ensures { MatchOption result (count_of self.now ≤ block) (IsBlockAt self.now block) }
    {
        (block < self.len()).then(|| self.at(block))
    }

    // A block that there is.
    pub(crate) fn at(&self, block: u16) -> Block
        requires { block < count_of self.now }
        ensures first { result.first.0 ≡ slice_index (firsts_of self.now) block }
        ensures last { result.last.0 ≡ slice_index (lasts_of self.now) block }
        ensures home { result.home ≡ slice_index (homes_of self.now) block }
    {
        let block = usize::from(block);
        Block {
            first: Address(self.firsts[block]),
            last: Address(self.lasts[block]),
            home: self.homes[block],
        }
    }

    /// The addresses of the blocks, to look up in.
    pub fn blocks(&self) -> Blocks<'_>
        ensures firsts { lent_firsts result ≡ firsts_of self.now }
        ensures lasts { lent_lasts result ≡ lasts_of self.now }
    {
        Blocks {
            firsts: &self.firsts,
            lasts: &self.lasts,
        }
    }

    /// The homes, by block.
    pub fn homes(&self) -> &[u8]
        ensures { result.now ≡ homes_of self.now }
    {
        &self.homes
    }

    /// A block more, after the others. Where it may not stand there, or memory could not be had, nothing changes.
    pub fn push(&mut self, block: Block) -> Result<(), Unfit>
        ensures { Pushed self.old self.new block result }
    {
        self.admit(block)?;
        Ok(self.append(block)?)
    }

    // Whether a block may stand after the others.
    fn admit(&self, block: Block) -> Result<(), Unfit>
        ensures { let why = unfit (firsts_of self.now) (lasts_of self.now) block in
            MatchResult result (λ _. why ≡ None) (λ e. why ≡ Some e) }
    {
        if let Some(first) = self.firsts.last()
            && block.first.0 <= *first
        {
            return Err(Unfit::NotRising);
        }
        if block.last.0 < block.first.0 {
            return Err(Unfit::Turned);
        }
        if self.len() >= MOST {
            return Err(Unfit::TooMany);
        }
        if let Some(last) = self.lasts.last()
            && block.first.0 <= *last
        {
            return Err(Unfit::Overlap);
        }
        Ok(())
    }

    // The block more, for which room is made before anything is written.
    #[tactic(auto, using(crate::proofs::Grown::stands))]
    fn append(&mut self, block: Block) -> Result<(), AllocError>
        requires { unfit (firsts_of self.old) (lasts_of self.old) block ≡ None }
        ensures firsts { OnOk result (firsts_of self.new ≡
            firsts_of self.old ++ block.first.0 ∷ []) }
        ensures lasts { OnOk result (lasts_of self.new ≡ lasts_of self.old ++ block.last.0 ∷ []) }
        ensures homes { OnOk result (homes_of self.new ≡ homes_of self.old ++ block.home ∷ []) }
        ensures same { OnErr result (Same self.old self.new) }
    {
        self.firsts.reserve(1)?;
        self.lasts.reserve(1)?;
        self.homes.reserve(1)?;
        self.firsts.push(block.first.0)?;
        self.lasts.push(block.last.0)?;
        self.homes.push(block.home)?;
        Ok(())
    }
}
