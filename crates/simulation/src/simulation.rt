//! All networks, and what is in flight between them: a state that a run reaches.
ghost use Rattle.std.specs.Prelude.{◌≡◌, ℕ, ◌≤◌, true, map, vec_len, slice_index_or};
ghost use Rattle.relations.specs.Sound.{networks as count};
ghost use Rattle.blocks.specs.Shown.{count_of};
ghost use Rattle.model.specs.Run.{Reach};
ghost use Rattle.simulation.specs.Posts.{inside, posts};
ghost use Rattle.simulation.specs.Whole.{blocks_in, lookup_in, number_of, whole, world_with};
ghost use Rattle.simulation.specs.declared.simulation.making.TheConstants.{MOST_BLOCKS, MOST_NETWORKS};

use crate::letter::Letter;
use crate::network::Network;
use blocks::BlockList;
use relations::Relations;

mod hearing;
mod making;
mod reading;
mod resting;
mod sending;
mod turning;

pub use making::{MOST_BLOCKS, MOST_NETWORKS};

/// All networks of sound relations, with what is in flight between them: always a state that a run
/// reaches. The networks stand in the order of their numbers; the letters, what is in flight, in
/// the order in which they were sent.
#[derive(Drop)]
pub struct Simulation {
    relations: Relations,
    blocks: BlockList,
    networks: Vec<Network>,
    letters: Vec<Letter>,
    ghost all: { vec_len networks ≡ count relations },
    ghost few: { count relations ≤ MOST_NETWORKS },
    ghost small: { count_of blocks ≤ MOST_BLOCKS },
    ghost numbers: { ((i : ℕ) → slice_index_or (map number_of networks.items) i i ≡ i) },
    ghost same: { ((i : ℕ)
        → slice_index_or (map blocks_in networks.items) i (count_of blocks) ≡ count_of blocks) },
    ghost within: { inside (count relations) (posts letters.items) ≡ true },
    ghost reached: { ∥ Reach (world_with relations blocks) (lookup_in blocks)
        (whole networks.items letters.items) ∥₁ },
}
