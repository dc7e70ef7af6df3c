//! Making a simulation.
ghost use Rattle.std.specs.Prelude.{◌≡◌, ◌<◌, true, MatchResult};
ghost use Rattle.links.specs.Made.{IfTooLarge};
ghost use Rattle.selection.specs.declared.table.methods.TheConstants.{MOST_BLOCKS as TABLE_BLOCKS};
ghost use Rattle.simulation.specs.Beginning.{AllFresh, Began, Fresh, too_large};

use crate::network::Network;
use crate::simulation::Simulation;
use blocks::BlockList;
use links::{CreationError, Router, Tables};
use relations::Relations;
use std::alloc::Global;

/// The most networks that can be rehearsed.
pub const MOST_NETWORKS: u8 = 16;

/// The most blocks that can be rehearsed.
pub const MOST_BLOCKS: u16 = 64;

// A network with every link down, that received and advertised nothing.
fn network(heap: Global, number: u8, blocks: u16) -> Result<Network, CreationError>
    ensures { MatchResult result (Fresh number blocks) (IfTooLarge (TABLE_BLOCKS < blocks)) }
{
    Ok(Network {
        router: Router::new(number),
        tables: Tables::new(heap, blocks)?,
    })
}

// The networks of the numbers below `count`, in their order; refused for more than 256 blocks.
fn networks(heap: Global, count: u8, blocks: u16) -> Result<Vec<Network>, CreationError>
    ensures { MatchResult result (AllFresh count blocks) (IfTooLarge (TABLE_BLOCKS < blocks)) }
{
    (0..count)
        .map(|number| network(heap, number, blocks))
        .try_collect(heap)
}

impl Simulation {
    /// Every link is down, and nothing is in flight.
    ///
    /// # Errors
    /// There are more than 16 networks or 64 blocks, or memory could not be had.
    pub fn new(
        heap: Global,
        relations: Relations,
        blocks: BlockList,
    ) -> Result<Simulation, CreationError>
        ensures { MatchResult result (Began relations blocks)
            (IfTooLarge (too_large relations blocks ≡ true)) }
    {
        if relations.networks() > MOST_NETWORKS || blocks.len() > MOST_BLOCKS {
            return Err(CreationError::TooLarge);
        }
        let networks = networks(heap, relations.networks(), blocks.len())?;
        Ok(Simulation {
            relations,
            blocks,
            networks,
            letters: Vec::new(heap),
        })
    }
}
