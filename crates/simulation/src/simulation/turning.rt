//! A link that turns.
ghost use Rattle.std.specs.Prelude.{◌≡◌};
ghost use Rattle.simulation.specs.Played.{TurnPlayed, TurnPrepared};
ghost use Rattle.simulation.specs.Simulated.{blocks_of, world_of};

use crate::cause::{Cause, Refusal};
use crate::letter::Letter;
use crate::network::{Network, turn_both};
use crate::posting::cut_link;
use crate::simulation::Simulation;
use crate::simulation::hearing::have_room;

impl Simulation {
    // The two networks as they are when the link between them has turned, and what is in flight
    // then.
    fn turned(
        &self,
        one: u8,
        other: u8,
        up: bool,
    ) -> Result<(Network, Network, Vec<Letter>), Refusal>
        ensures { TurnPrepared self.now one other up result }
    {
        self.both_exist(one, other)?;
        if !self.relations.relation(one, other).is_related() {
            return Err(Cause::NoLink.into());
        }
        let mut letters = cut_link(&self.letters, one, other, *self.letters.allocator())?;
        let (first, second) = turn_both(
            self.world(),
            &self.networks[one as usize],
            &self.networks[other as usize],
            up,
            &mut letters,
        )?;
        Ok((first, second, letters))
    }

    /// The link of two networks turns, or is turned to what it is already.
    ///
    /// # Errors
    /// There is no such network, the two are not related, more updates would be in flight than
    /// there is room for, or memory could not be had; then nothing is changed.
    pub fn turn(&mut self, one: u8, other: u8, up: bool) -> Result<(), Refusal>
        ensures world { world_of self.new ≡ world_of self.old }
        ensures blocks { blocks_of self.new ≡ blocks_of self.old }
        ensures played { TurnPlayed self.old self.new one other up result }
    {
        let (first, second, letters) = self.turned(one, other, up)?;
        have_room(&letters)?;
        // Both ends and the letters at once, and not each by `put`: with one end alone the state is
        // none that a run reaches.
        self.networks[other as usize] = second;
        self.networks[one as usize] = first;
        self.letters = letters;
        Ok(())
    }
}
