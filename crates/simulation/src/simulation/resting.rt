//! Hearing until nothing is in flight.
ghost use Rattle.std.specs.Prelude.{◌≡◌, ℕ, [], length, MatchOption, MatchResult, OnOk};
ghost use Rattle.model.specs.Promise.{Settled};
ghost use Rattle.model.specs.Run.{links as links_of};
ghost use Rattle.model.specs.Flight.{Still};
ghost use Rattle.std.specs.Option.{option_map};
ghost use Rattle.model.specs.Ends.{ends};
ghost use Rattle.forwarding.specs.Forwarding.{ended_of};
ghost use Rattle.simulation.specs.Posts.{posts};
ghost use Rattle.simulation.specs.Resting.{Foremost, LowestEnds, Told};
ghost use Rattle.simulation.specs.Played.{AllByFate, AllPlayed, NextPlayed};
ghost use Rattle.simulation.specs.Simulated.{blocks_of, state_of, world_of};

use crate::letter::Letter;
use crate::posting::oldest;
use crate::simulation::Simulation;
use forwarding::Ending;
use std::alloc::AllocError;

// The lowest of the pairs of networks that have a letter.
fn lowest(letters: &[Letter]) -> Option<(u8, u8)>
    ensures { MatchOption result (length letters.now ≡ 0) (LowestEnds letters.now) }
{
    letters.iter().map(|letter| (letter.from, letter.to)).min()
}

// An end, if there is one, is put behind the others.
fn note(endings: &mut Vec<Ending>, ending: Option<Ending>) -> Result<(), AllocError>
    ensures { MatchResult result
        (λ _. Told endings.old.items endings.new.items (ends (option_map ended_of ending)))
        (λ _. endings.new.items ≡ endings.old.items) }
{
    if let Some(ending) = ending {
        endings.push(ending)?;
    }
    Ok(())
}

impl Simulation {
    // The place of the oldest letter of the lowest pair that has something in flight.
    fn next(&self) -> Option<usize>
        ensures { MatchOption result (posts self.now.letters.items ≡ []) (Foremost self.now) }
    {
        let (from, to) = lowest(&self.letters)?;
        oldest(&self.letters, from, to)
    }

    // The oldest of the lowest pair that has something in flight is heard, and the end of a packet
    // that ended is put behind the others; false where nothing is in flight. The end is put first,
    // since that may want memory, and then nothing is changed.
    #[tactic(auto, using(crate::proofs::Rested::next_told))]
    fn hear_next(&mut self, endings: &mut Vec<Ending>) -> Result<bool, AllocError>
        ensures world { world_of self.new ≡ world_of self.old }
        ensures blocks { blocks_of self.new ≡ blocks_of self.old }
        ensures heard { NextPlayed self.old self.new endings.old.items endings.new.items result }
    {
        let Some(place) = self.next() else {
            return Ok(false);
        };
        let prepared = self.prepared(place)?;
        note(endings, prepared.ending)?;
        self.put(prepared);
        Ok(true)
    }

    /// Hears until nothing is in flight, always the oldest of the lowest pair that has something;
    /// the ends of packets that ended are put behind the others.
    ///
    /// # Errors
    /// Memory could not be had: it stops after a whole hearing, and may be called again.
    pub fn rest(&mut self, endings: &mut Vec<Ending>) -> Result<(), AllocError>
        ensures world { world_of self.new ≡ world_of self.old }
        ensures blocks { blocks_of self.new ≡ blocks_of self.old }
        ensures links { (i k : ℕ)
            → links_of (state_of self.new) i k ≡ links_of (state_of self.old) i k }
        ensures heard { AllPlayed self.old self.new endings.old.items endings.new.items }
        ensures still { OnOk result (Still (state_of self.new)) }
        ensures settled { OnOk result (Settled (world_of self.old) (state_of self.new)) }
        ensures fates { OnOk result (AllByFate self.old endings.old.items endings.new.items) }
    {
        while self.hear_next(endings)? {}
        Ok(())
    }
}
