// The search for the first cycle of customers.
ghost use Rattle.std.specs.Prelude.{[], ◌∷◌, ◌+◌, ◌<◌, IfOk, MatchOption};
ghost use Rattle.model.specs.Cycles.{First, NoCycle};
ghost use Rattle.relations.specs.Table.{rel};
ghost use Rattle.cycles.specs.Trace.{Next, Traced};
ghost use Rattle.cycles.specs.Walk.{Shortest};

use crate::walk::Slope;
use relations::{MOST, Matrix};
use std::alloc::{AllocError, Global};

impl Slope<'_> {
    // The lowest provider of `at`, from `low` on, from which `left` steps lead up to `low` and no fewer.
    fn next_up(self, at: u8, left: u8) -> u8
        requires some { (0 < left) × (left < 255) }
        requires short { Shortest (rel self.matrix.now) self.low (left + 1) at self.low }
        ensures { Next (rel self.entry.matrix.now) self.entry.low at left result }
    {
        (self.low..MOST)
            .find(|v| self.provides(at, *v) && self.steps_to_low(*v) == Some(left))
            .unwrap()
    }

    // The networks by which `steps` steps lead from `low` up to itself, `low` before them.
    fn ring(self, steps: u8, heap: Global) -> Result<Vec<u8>, AllocError>
        requires { Shortest (rel self.matrix.now) self.low steps self.low self.low }
        ensures { IfOk result (λ ring.
            Traced (rel self.entry.matrix.now) self.entry.low self.entry.low steps
            (self.entry.low ∷ []) ring.items) }
    {
        let mut at = self.low;
        let mut ring = Vec::new(heap);
        ring.push(at)?;
        for left in (1..steps).rev() {
            at = self.next_up(at, left);
            ring.push(at)?;
        }
        Ok(ring)
    }
}

/// The cycle of customers that is told, written from its lowest member; none if there is no cycle.
pub fn first_cycle(matrix: &Matrix, heap: Global) -> Result<Option<Vec<u8>>, AllocError>
    ensures { IfOk result (λ o.
        MatchOption o (NoCycle (rel matrix.now)) (λ ring. First (rel matrix.now) ring.items)) }
{
    // a loop: a chain would hand the steps on in a pair with their slope, or end in `transpose()` for what `?` says here
    for low in 0..matrix.networks() {
        let slope = Slope { matrix, low };
        if let Some(steps) = slope.steps_to_low(low) {
            return Ok(Some(slope.ring(steps, heap)?));
        }
    }
    Ok(None)
}
