//! The paths that a network was told, a row for each block and neighbour.
ghost use Rattle.std.specs.Prelude.{◌≤◌, vec_len};
ghost use Rattle.selection.specs.Rows.{Wide};
ghost use Rattle.selection.specs.declared.table.methods.TheConstants.{MOST_BLOCKS};

mod methods;
mod row;

use crate::table::row::Row;
pub use methods::MOST_BLOCKS;

/// The paths that a network was told: for each of at most 256 blocks a row for each of the 64
/// neighbours that there may be. A row is named by its block and its neighbour; the number of
/// blocks stays, and a step that answers false has changed nothing.
#[derive(Drop)]
pub struct PathTable {
    blocks: Vec<[Row; 64]>,
    ghost few: { vec_len blocks ≤ MOST_BLOCKS },
    ghost wide: { Wide blocks.items },
}
