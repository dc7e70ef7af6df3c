// From a table to sound relations.
ghost use Rattle.cycles.specs.Checked.{Checked};
ghost use Rattle.cycles.specs.declared.check.Unsound.TheVariants.{Memory};
ghost use Rattle.std.specs.Prelude.{◌≡◌};

use crate::search::first_cycle;
use relations::{Matrix, Relations};
use std::alloc::{AllocError, Global};

/// Why a table is not taken: a cycle of customers, each a customer of the next and the last of the first, or there is
/// too little memory to tell.
#[derive(Debug, Drop)]
pub enum Unsound {
    Cycle(Vec<u8>),
    Memory,
}

impl From<AllocError> for Unsound {
    ghost from_gives = { λ _ u. u ≡ Memory };

    fn from(_e: AllocError) -> Unsound {
        Unsound::Memory
    }
}

/// The relations of a table, if no network is its own customer over others; else the first such cycle. It is the cycle that
/// `first_cycle` answers.
pub fn sound(matrix: Matrix, heap: Global) -> Result<Relations, Unsound>
    ensures { Checked matrix result }
{
    match first_cycle(&matrix, heap)? {
        None => Ok(Relations::new(matrix)),
        Some(ring) => Err(Unsound::Cycle(ring)),
    }
}
