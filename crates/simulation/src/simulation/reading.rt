//! What a simulation says of itself.
ghost use Rattle.std.specs.Prelude.{◌≡◌, ◌≤◌, MatchOption};
ghost use Rattle.selection.specs.Meaning.{meaning};
ghost use Rattle.simulation.specs.Shown.{goes_by};
ghost use Rattle.simulation.specs.Simulated.{blocks_of, state_of, world_of};
ghost use Rattle.blocks.specs.Shown.{IsBlockAt, homes_of};

use crate::simulation::Simulation;
use blocks::Block;
use selection::{Route, World};

impl Simulation {
    // What all networks share.
    pub(crate) fn world(&self) -> World<'_>
        ensures relations { result.relations.now ≡ self.now.relations }
        ensures homes { result.homes.now ≡ homes_of self.now.blocks }
    {
        World {
            relations: &self.relations,
            homes: self.blocks.homes(),
        }
    }

    /// How many networks there are.
    pub fn networks(&self) -> u8
        ensures { result ≡ (world_of self.now).n }
    {
        self.relations.networks()
    }

    /// How many blocks there are.
    pub fn blocks(&self) -> u16
        ensures { result ≡ (world_of self.now).blocks }
    {
        self.blocks.len()
    }

    /// A block, if there is such a block.
    pub fn block(&self, block: u16) -> Option<Block>
        ensures { MatchOption result ((world_of self.now).blocks ≤ block)
            (IsBlockAt (blocks_of self.now) block) }
    {
        self.blocks.block(block)
    }

    /// What a network goes by for a block; nothing where there is no such network or block.
    pub fn route(&self, network: u8, block: u16) -> Route<'_>
        ensures { meaning result ≡ goes_by (world_of self.now) (state_of self.now) network block }
    {
        let Some(network) = self.networks.get(network as usize) else {
            return Route::Nothing;
        };
        network.router.route(self.world(), &network.tables, block)
    }
}
