//! Making, reading and writing the table.
ghost use Rattle.std.specs.Prelude.{◌≡◌, ℕ, min, true, false, not, ◌&&◌, IfOk, MatchBool, ◌==◌, nat_lt};
ghost use Rattle.model.specs.declared.limits.TheConstants.{MOST_NETWORKS};
ghost use Rattle.relations.specs.Between.{unrelated, with_pair};
ghost use Rattle.relations.specs.Table.{count, rel};

use crate::matrix::Matrix;
use model::{MOST_NETWORKS, Relation};
use std::alloc::{AllocError, Global};

impl Matrix {
    /// No network is related to another. Of more than 64 networks the first 64 are taken.
    ///
    /// # Errors
    /// Memory could not be had.
    pub fn new(heap: Global, networks: u8) -> Result<Matrix, AllocError>
        ensures count { IfOk result (λ m. count m ≡ min networks MOST_NETWORKS) }
        ensures none { IfOk result (λ m. (i j : ℕ) → rel m i j ≡ unrelated i j) }
    {
        let rows = vec![in heap; [Relation::Unrelated; 64]; networks.min(MOST_NETWORKS) as usize]?;
        Ok(Matrix { rows })
    }

    /// How many networks there are.
    pub fn networks(&self) -> u8
        ensures { result ≡ count self.now }
    {
        self.rows.len() as u8
    }

    /// What network j is to network i.
    pub fn relation(&self, i: u8, j: u8) -> Relation
        ensures { result ≡ rel self.now i j }
    {
        self.rows
            .get(i as usize)
            .and_then(|row| row.get(j as usize))
            .copied()
            .unwrap_or(Relation::Unrelated)
    }

    /// From now on network j is `relation` to network i, and i the opposite to j. False, and
    /// nothing done, for a network and itself and for networks that there are not.
    pub fn relate(&mut self, i: u8, j: u8, relation: Relation) -> bool
        ensures test { result
            ≡ (nat_lt i (count self.old) && nat_lt j (count self.old) && not (i == j)) }
        ensures same { count self.new ≡ count self.old }
        ensures after { MatchBool result
            ((a b : ℕ) → rel self.new a b ≡ with_pair (rel self.old) i j relation a b)
            (self.new ≡ self.old) }
    {
        if i >= self.networks() || j >= self.networks() || i == j {
            return false;
        }
        self.rows[i as usize][j as usize] = relation;
        self.rows[j as usize][i as usize] = relation.opposite();
        true
    }
}
