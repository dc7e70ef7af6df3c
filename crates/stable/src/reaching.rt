//! From where some way of links that are up leads to a home.
ghost use Rattle.std.specs.Prelude.{◌≡◌, ℕ, ◌<◌, ◌&&◌, MatchBool, true, false, nat_lt};
ghost use Rattle.selection.specs.Sets.{member};
ghost use Rattle.stable.specs.Networks.{ClosedIn, GrownIn, LinkedIn, RealIn, WayHomeIn, count_in, is_known_home};
ghost use Rattle.stable.specs.Ways.{Kept};

use crate::looking::Networks;
use selection::NetworkSet;

impl Networks<'_> {
    // Whether a link that is up leads from a network to one in the set.
    fn leads_in(self, from: u8, reached: NetworkSet) -> bool
        ensures { MatchBool result
            (LinkedIn self.entry reached from)
            (LinkedIn self.entry reached from → ⊥) }
    {
        (0..self.world.relations.networks()).any(|to| reached.contains(to)
            && self.links.is_up(from, to))
    }

    // Whether a network is not in the set yet, and a link leads from it to one that is.
    fn joins(self, from: u8, reached: NetworkSet) -> bool
        ensures { MatchBool result
            ((member reached from ≡ false) × LinkedIn self.entry reached from)
            (LinkedIn self.entry reached from → member reached from ≡ true) }
    {
        !reached.contains(from) && self.leads_in(from, reached)
    }

    // Adds to the set the networks from which a link leads to one in it. Was there any?
    fn spread(self, reached: &mut NetworkSet) -> bool
        ensures { GrownIn self.entry reached.old reached.new result }
    {
        let mut grown = false;
        for from in 0..self.world.relations.networks() {
            if self.joins(from, *reached) {
                reached.insert(from);
                grown = true;
            }
        }
        grown
    }

    // Adds networks to the set for as long as there are any to add.
    fn spread_all(self, reached: &mut NetworkSet)
        ensures real { RealIn self.entry reached.old → RealIn self.entry reached.new }
        ensures kept { Kept (member reached.old) (member reached.new) }
        ensures closed { ClosedIn self.entry reached.new }
    {
        if self.spread(reached) {
            self.spread_all(reached);
        }
    }

    // The homes of the block.
    fn homes(self) -> NetworkSet
        ensures { (k : ℕ) → member result k ≡ is_known_home self.entry k }
    {
        let mut homes = NetworkSet::none();
        for network in 0..self.world.relations.networks() {
            if self.is_home(network) {
                homes.insert(network);
            }
        }
        homes
    }

    // The networks from which some way of links that are up leads to a home.
    pub(crate) fn reaching(self) -> NetworkSet
        ensures { (i : ℕ) → i < count_in self.entry →
            MatchBool (member result i) (WayHomeIn self.entry i) (WayHomeIn self.entry i → ⊥) }
    {
        let mut reached = self.homes();
        self.spread_all(&mut reached);
        reached
    }
}
