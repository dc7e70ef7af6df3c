//! Relations that are sound: both ends say the same, and there is no cycle of customers.
ghost use Rattle.model.specs.Cycles.{NoCycle};
ghost use Rattle.relations.specs.Table.{rel};

use crate::matrix::Matrix;

mod methods;

/// What the networks are to each other: both ends say the same, none is related to itself, and no
/// cycle of customers goes round.
#[derive(Drop)]
pub struct Relations {
    matrix: Matrix,
    ghost acyclic: { NoCycle (rel matrix) },
}
