// Walking up from a network, from customer to provider, level by level.
ghost use Rattle.std.specs.Prelude.{◌≡◌, ℕ, ◌+◌, ◌<◌, ◌≤◌, slice_index};
ghost use Rattle.model.specs.Relations.{provider};
ghost use Rattle.model.specs.declared.limits.TheConstants.{MOST_NETWORKS};
ghost use Rattle.relations.specs.Table.{rel};
ghost use Rattle.cycles.specs.Walk.{Fewest, Known, Spread, Walked, unseen};

use relations::{MOST, Matrix, Relation};

// For each network how few steps lead up to it from where a walk starts.
// 0 where none do, not `None`: `Spread` and `Known`, whose meaning stays, count those not yet seen as zeros.
type Steps = [u8; 64];

// The networks from `low` on, of those in a table.
#[derive(Clone, Copy)]
pub(crate) struct Slope<'a> {
    pub matrix: &'a Matrix,
    pub low: u8,
    ghost is_in_table: { low < MOST_NETWORKS },
}

impl Slope<'_> {
    // Is network `to` a provider of network `from`?
    pub(crate) fn provides(self, from: u8, to: u8) -> bool
        ensures { result ≡ provider (rel self.entry.matrix.now from to) }
    {
        self.matrix.relation(from, to) == Relation::Provider
    }

    // Writes `step` for each provider of `from`, from `low` on, that is not yet seen. Was there any?
    fn meet(self, from: u8, step: u8, steps: &mut Steps) -> bool
        requires { 0 < step }
        ensures { Spread (rel self.entry.matrix.now) self.entry.low step
            (λ v w. v ≡ from) steps.old steps.new result }
    {
        let mut met = false;
        // over numbers, since each is asked of the table, and written at
        for w in self.low..MOST {
            if steps[w as usize] == 0 && self.provides(from, w) {
                steps[w as usize] = step;
                met = true;
            }
        }
        met
    }

    // Goes one step on from each network that `level` steps lead to. Was a network met that was not yet seen?
    fn rise(self, level: u8, steps: &mut Steps) -> bool
        requires { (0 < level) × (level < 255) }
        ensures { Spread (rel self.entry.matrix.now) self.entry.low (level + 1)
            (λ v w. slice_index steps.old v ≡ level) steps.old steps.new result }
    {
        let mut met = false;
        // over numbers, since `meet` takes each, and writes to the whole
        for v in 0..MOST {
            if steps[v as usize] == level && self.meet(v, level + 1, steps) {
                met = true;
            }
        }
        met
    }

    // Rises for as long as that meets a network not yet seen.
    fn climb(self, level: u8, steps: &mut Steps)
        requires some { 0 < level }
        requires bound { level + unseen steps.old ≤ MOST_NETWORKS + 1 }
        ensures { (start : ℕ) →
            Known (rel self.entry.matrix.now) self.entry.low level start steps.old →
            Walked (rel self.entry.matrix.now) self.entry.low start steps.new }
    {
        if self.rise(level, steps) {
            self.climb(level + 1, steps);
        }
    }

    // For each network how few steps lead up to it from `start`, over networks from `low` on.
    fn walk_up(self, start: u8) -> Steps
        ensures { Walked (rel self.entry.matrix.now) self.entry.low start result }
    {
        let mut steps = [0; 64];
        self.meet(start, 1, &mut steps);
        self.climb(1, &mut steps);
        steps
    }

    // How few steps lead up from `start` to `low`, over networks from `low` on; none if there is no such walk.
    pub(crate) fn steps_to_low(self, start: u8) -> Option<u8>
        ensures { Fewest (rel self.entry.matrix.now) self.entry.low result start self.entry.low }
    {
        match self.walk_up(start)[self.low as usize] {
            0 => None,
            steps => Some(steps),
        }
    }
}
