//! A table of what networks are to each other, in which both ends always say the same.
ghost use Rattle.std.specs.Prelude.{◌≤◌, vec_len};
ghost use Rattle.model.specs.Relations.{Apart, Mutual};
ghost use Rattle.model.specs.declared.limits.TheConstants.{MOST_NETWORKS};
ghost use Rattle.relations.specs.Between.{Wide, between};

use model::Relation;

mod methods;

/// What at most 64 networks are to each other, cycles or not. Place j of row i says what network j
/// is to network i. A row is an array with a place for each of the 64 networks that there may be,
/// so that the whole table is one piece of memory.
#[derive(Drop)]
pub struct Matrix {
    rows: Vec<[Relation; 64]>,
    ghost few: { vec_len rows ≤ MOST_NETWORKS },
    ghost wide: { Wide rows.items },
    ghost mutual: { Mutual (between rows.items) },
    ghost apart: { Apart (between rows.items) },
}
