//! Hearing what is in flight.
ghost use Rattle.std.specs.Prelude.{◌≡◌, ◌<◌, ◌≤◌, true, false, IfOk, MatchResult, OnOk};
ghost use Rattle.simulation.specs.declared.cause.Cause.TheVariants.{NoSuchNetwork, TooMany};
ghost use Rattle.simulation.specs.Played.{Falls, HearingPlayed, HearingPrepared};
ghost use Rattle.simulation.specs.Simulated.{blocks_of, MakesHeard, Ready, letter_of, state_of};
ghost use Rattle.simulation.specs.Simulated.{with_network, world_of};
ghost use Rattle.simulation.specs.Steps.{both};
ghost use Rattle.simulation.specs.Posting.{Oldest, updates_sent};
ghost use Rattle.simulation.specs.Whole.{whole};

use crate::cause::{Cause, Refusal};
use crate::letter::{Item, Letter};
use crate::posting::{oldest, updates, without};
use crate::prepared::Prepared;
use crate::simulation::Simulation;
use forwarding::Ending;
use std::alloc::AllocError;

// The most updates that a step may leave in flight.
const MOST_UPDATES: usize = 4096;

// Refused where there are more updates than may be in flight.
pub(crate) fn have_room(letters: &[Letter]) -> Result<(), Cause>
    ensures { MatchResult result (λ _. updates_sent letters.now ≤ MOST_UPDATES)
        (λ cause. (cause ≡ TooMany) × (MOST_UPDATES < updates_sent letters.now)) }
{
    if updates(letters) > MOST_UPDATES {
        return Err(Cause::TooMany);
    }
    Ok(())
}

impl Simulation {
    // Refused where one of two numbers is that of no network.
    pub(crate) fn both_exist(&self, one: u8, other: u8) -> Result<(), Cause>
        ensures { MatchResult result (λ _. both (world_of self.now) one other ≡ true)
            (λ cause. (cause ≡ NoSuchNetwork) × (both (world_of self.now) one other ≡ false)) }
    {
        let networks = self.relations.networks();
        if one >= networks || other >= networks {
            return Err(Cause::NoSuchNetwork);
        }
        Ok(())
    }

    // What is left when the letter at a place is heard, which is the oldest between its ends.
    pub(crate) fn prepared(&self, place: usize) -> Result<Prepared, AllocError>
        requires { Oldest (letter_of self.now place).from (letter_of self.now place).to place
            self.now.letters.items }
        ensures { IfOk result
            (MakesHeard self.now (letter_of self.now place).from (letter_of self.now place).to) }
    {
        let Letter { from, to, item } = self.letters[place];
        let mut letters = without(&self.letters, place, *self.letters.allocator())?;
        let hearer = &self.networks[to as usize];
        let (network, ending) = match item {
            Item::Update(update) => {
                let network = hearer.hear(self.world(), from, update, &mut letters)?;
                (Some(network), None)
            }
            Item::Packet(packet) => {
                let blocks = self.blocks.blocks();
                let ending = hearer.carry(self.world(), &blocks, from, packet, &mut letters)?;
                (None, ending)
            }
        };
        Ok(Prepared {
            network,
            letters,
            ending,
        })
    }

    // What is left when network `to` has heard the oldest thing from `from`.
    fn heard(&self, from: u8, to: u8) -> Result<Prepared, Refusal>
        ensures { HearingPrepared self.now from to result }
    {
        self.both_exist(from, to)?;
        let place = oldest(&self.letters, from, to).ok_or(Cause::NothingInFlight)?;
        Ok(self.prepared(place)?)
    }

    // What was prepared takes the place of what there is; the end of a packet that ended is handed
    // on.
    pub(crate) fn put(&mut self, prepared: Prepared) -> Option<Ending>
        requires { Ready self.old prepared }
        ensures world { world_of self.new ≡ world_of self.old }
        ensures blocks { blocks_of self.new ≡ blocks_of self.old }
        ensures ending { result ≡ prepared.ending }
        ensures state { state_of self.new
            ≡ whole (with_network self.old.networks.items prepared.network) prepared.letters.items }
    {
        let Prepared {
            network,
            letters,
            ending,
        } = prepared;
        if let Some(network) = network {
            let number = network.router.number();
            self.networks[number as usize] = network;
        }
        self.letters = letters;
        ending
    }

    /// Network `to` hears the oldest thing that is in flight from `from`; the end of a packet that
    /// ended is answered.
    ///
    /// # Errors
    /// There is no such network, nothing is in flight there, more updates would be in flight than
    /// there is room for, or memory could not be had; then nothing is changed.
    pub fn hear(&mut self, from: u8, to: u8) -> Result<Option<Ending>, Refusal>
        ensures world { world_of self.new ≡ world_of self.old }
        ensures blocks { blocks_of self.new ≡ blocks_of self.old }
        ensures played { HearingPlayed self.old self.new from to result }
        ensures falls { OnOk result (Falls self.old self.new) }
    {
        let prepared = self.heard(from, to)?;
        have_room(&prepared.letters)?;
        Ok(self.put(prepared))
    }
}
