//! A box to try: its router and what it holds, over the ties and the blocks.
use blocks::{BlockList, MOST as MOST_BLOCKS};
use links::{CreationError, Router, Tables};
use relations::{MOST as MOST_NETWORKS, Relations};
use selection::World;
use speaker::{Refusal, answer};
use std::alloc::{AllocError, Global};
use std::fs;

/// What all boxes stand on.
#[derive(Drop)]
pub(crate) struct Ground {
    relations: Relations,
    blocks: BlockList,
}

impl Ground {
    /// That of a ties file and a block file.
    pub(crate) fn load(rt: &HostRuntime, ties: &str, blocks: &str) -> anyhow::Result<Ground> {
        let heap = rt.alloc();
        let relations = ties::read(&fs::read(rt, ties)?, MOST_NETWORKS, heap)?;
        let blocks = fs::read(rt, blocks)?;
        let blocks = blocks::read(&blocks, relations.networks(), MOST_BLOCKS, heap)?;
        Ok(Ground { relations, blocks })
    }

    // What of it is lent to a router.
    fn world(&self) -> World<'_> {
        World {
            relations: &self.relations,
            homes: self.blocks.homes(),
        }
    }
}

/// A router and its tables.
#[derive(Drop)]
pub(crate) struct Village {
    router: Router,
    tables: Tables,
}

impl Clone for Village {
    fn clone(&self) -> Result<Village, AllocError> {
        Ok(Village {
            router: self.router,
            tables: self.tables.clone()?,
        })
    }
}

impl Village {
    /// With every line down.
    pub(crate) fn new(ground: &Ground, number: u8, heap: Global) -> Result<Village, CreationError> {
        Ok(Village {
            router: Router::new(number),
            tables: Tables::new(heap, ground.blocks.len())?,
        })
    }

    /// Takes the message at the front of the bytes, or refuses it.
    pub(crate) fn take(
        &mut self,
        ground: &Ground,
        message: &[u8],
        written: &mut Vec<u8>,
    ) -> Result<usize, Refusal> {
        let blocks = ground.blocks.blocks();
        let (router, answered) = answer(
            self.router,
            ground.world(),
            &mut self.tables,
            &blocks,
            message,
            written,
        );
        self.router = router;
        answered
    }
}
