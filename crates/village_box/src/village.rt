//! A village's router, and all that it works with.
ghost use Rattle.std.specs.Prelude.{◌≡◌, ◌≤◌, IfOk, OnErr};
ghost use Rattle.links.specs.Held.{blocks_of};
ghost use Rattle.speaker.specs.Answers.{Answered};
ghost use Rattle.speaker.specs.Bytes.{enough, on_bytes};
ghost use Rattle.village_box.specs.Due.{Begins, held_by, lookup_of, number_in, world_of};
ghost use Rattle.village_box.specs.Taking.{Took};

use blocks::BlockList;
use links::{CreationError, Router, Tables};
use relations::Relations;
use selection::World;
use speaker::Refusal;
use std::alloc::Global;

/// A router, and the ties, tables and blocks that it works with.
#[derive(Drop)]
pub(crate) struct Village {
    router: Router,
    relations: Relations,
    tables: Tables,
    blocks: BlockList,
}

impl Village {
    /// Every line of the village is down, and it has heard nothing.
    pub(crate) fn new(
        heap: Global,
        relations: Relations,
        blocks: BlockList,
        number: u8,
    ) -> Result<Village, CreationError>
        ensures { IfOk result (Begins number relations blocks) }
    {
        let tables = Tables::new(heap, blocks.len())?;
        Ok(Village {
            router: Router::new(number),
            relations,
            tables,
            blocks,
        })
    }

    /// How many bytes are to be free behind what is written, that no memory is wanted for the answer to a thing.
    pub(crate) fn room(&self) -> usize
        ensures room { result ≡ enough (blocks_of self.now.tables) }
        ensures few { result ≤ 1134912 }
    {
        speaker::room(self.tables.blocks())
    }

    // What the router answers to the bytes.
    #[tactic(auto, using(crate::proofs::Streaming::lent_answered))]
    fn speak(&mut self, bytes: &[u8], out: &mut Vec<u8>) -> Result<usize, Refusal>
        ensures relations { self.new.relations ≡ self.old.relations }
        ensures blocks { self.new.blocks ≡ self.old.blocks }
        ensures count { blocks_of self.new.tables ≡ blocks_of self.old.tables }
        ensures number { number_in self.new ≡ number_in self.old }
        ensures answer { Answered
            (on_bytes (world_of self.old) (lookup_of self.old)
            (number_in self.old) (held_by self.old) bytes.now)
            (held_by self.new) out.old.items out.new.items result }
        ensures kept { OnErr result
            ((self.new.router ≡ self.old.router) × (self.new.tables ≡ self.old.tables)
            × (out.new.items ≡ out.old.items)) }
    {
        let world = World {
            relations: &self.relations,
            homes: self.blocks.homes(),
        };
        let blocks = self.blocks.blocks();
        let (router, answered) = speaker::answer(
            self.router,
            world,
            &mut self.tables,
            &blocks,
            bytes,
            out,
        );
        self.router = router;
        answered
    }

    /// Takes the thing at the front of the bytes, and writes what it tells behind what was written before: how many bytes the
    /// thing has, or why it is refused.
    #[tactic(auto, using(crate::proofs::Streaming::took_by))]
    pub(crate) fn answer(&mut self, bytes: &[u8], out: &mut Vec<u8>) -> Result<usize, Refusal>
        ensures { Took self.old out.old.items self.new out.new.items bytes.now result }
    {
        self.speak(bytes, out)
    }
}
