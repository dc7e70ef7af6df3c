//! Making and reading sound relations.
ghost use Rattle.std.specs.Prelude.{◌≡◌};
ghost use Rattle.model.specs.Cycles.{NoCycle};
ghost use Rattle.relations.specs.Sound.{networks as networks_of, relation as relation_of};
ghost use Rattle.relations.specs.Table.{rel};

use crate::matrix::Matrix;
use crate::sound::Relations;
use model::Relation;

impl Relations {
    /// The relations of a table that has no cycle of customers.
    pub fn new(matrix: Matrix) -> Relations
        requires { NoCycle (rel matrix) }
        ensures { result.matrix ≡ matrix }
    {
        Relations { matrix }
    }

    /// How many networks there are.
    pub fn networks(&self) -> u8
        ensures { result ≡ networks_of self.now }
    {
        self.matrix.networks()
    }

    /// What network j is to network i: `Unrelated` too for one that there is not.
    pub fn relation(&self, i: u8, j: u8) -> Relation
        ensures { result ≡ relation_of self.now i j }
    {
        self.matrix.relation(i, j)
    }
}
