//! Networks set up: the ties first, and then the blocks.
use crate::refused::{Failure, Refused, not_made};
use console::read;
use simulation::{MOST_BLOCKS, MOST_NETWORKS, Simulation};

/// All networks of a ties file, and the blocks of a block file: every link is down, and nothing is in flight.
pub(crate) fn set_up(rt: &HostRuntime, ties: &str, blocks: &str) -> Result<Simulation, Failure> {
    let heap = rt.alloc();
    let ties = read(rt, ties)?;
    let relations = ties::read(&ties, MOST_NETWORKS, heap)
        .map_err(Refused::Ties)
        .map_err(Failure::Refused)?;
    let (networks, most) = (relations.networks(), MOST_BLOCKS);
    let blocks = read(rt, blocks)?;
    let blocks = blocks::read(&blocks, networks, most, heap)
        .map_err(Refused::Blocks)
        .map_err(Failure::Refused)?;
    Simulation::new(heap, relations, blocks).map_err(not_made)
}
