//! Making, reading and turning links.
ghost use Rattle.std.specs.Prelude.{◌≡◌, ℕ, false, ◌&&◌, OnErr, MatchResult, nat_lt};
ghost use Rattle.std.specs.List.{slice_get};
ghost use Rattle.model.specs.declared.limits.TheConstants.{MOST_NETWORKS};
ghost use Rattle.selection.specs.Sets.{member};
ghost use Rattle.stable.specs.Linked.{TurnRefused, Turned, in_some, up};

use crate::linked::LinkSet;
use model::Fault;
use relations::Relations;
use selection::NetworkSet;

impl LinkSet {
    /// Every link is down.
    pub fn none() -> LinkSet
        ensures { (i j : ℕ) → up result i j ≡ false }
    {
        LinkSet {
            higher: all(NetworkSet::none()),
        }
    }

    /// Whether the link of two networks is up.
    pub fn is_up(&self, one: u8, other: u8) -> bool
        ensures { result ≡ up self.now one other }
    {
        match self.higher.get(one.min(other) as usize) {
            Some(set) => set.contains(one.max(other)),
            None => false,
        }
    }

    /// The link of two networks turns, or is turned to what it is already.
    ///
    /// # Errors
    /// A network that there is not, or two that are not related; then nothing is changed.
    #[tactic(auto, using(crate::proofs::Links::one_turned))]
    pub fn turn(
        &mut self,
        relations: &Relations,
        one: u8,
        other: u8,
        is_up: bool,
    ) -> Result<(), Fault>
        ensures turned { MatchResult result
            (λ _. Turned relations.now one other is_up self.old self.new)
            (λ fault. TurnRefused relations.now one other fault) }
        ensures kept { OnErr result (self.new ≡ self.old) }
    {
        let networks = relations.networks();
        if one >= networks || other >= networks {
            return Err(Fault::NoSuchNetwork);
        }
        if !relations.relation(one, other).is_related() {
            return Err(Fault::NoLink);
        }
        let low = one.min(other) as usize;
        let mut ends = self.higher[low];
        ends.set(one.max(other), is_up);
        self.higher[low] = ends;
        Ok(())
    }
}

// Apart, since what an array literal holds is known where a contract says it.
fn all(ends: NetworkSet) -> [NetworkSet; 64]
    ensures { (i j : ℕ) →
        in_some (slice_get result i) j ≡ (nat_lt i MOST_NETWORKS && member ends j) }
{
    [ends; 64]
}
