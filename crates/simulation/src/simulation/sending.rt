//! Packets that people send.
ghost use Rattle.std.specs.Prelude.{◌≡◌, OnOk};
ghost use Rattle.simulation.specs.Played.{FateAdded, SendingPlayed, SendingPrepared, SentByFate};
ghost use Rattle.simulation.specs.Simulated.{blocks_of, world_of};

use crate::cause::{Cause, Refusal};
use crate::prepared::Prepared;
use crate::simulation::Simulation;
use crate::simulation::hearing::have_room;
use forwarding::Ending;
use text::Address;

impl Simulation {
    // What is left when the people of a network have sent a packet.
    fn sent(&self, network: u8, address: Address) -> Result<Prepared, Refusal>
        ensures { SendingPrepared self.now network address.0 result }
    {
        let Some(sender) = self.networks.get(network as usize) else {
            return Err(Cause::NoSuchNetwork.into());
        };
        let mut letters = self.letters.to_vec(*self.letters.allocator())?;
        let blocks = self.blocks.blocks();
        let ending = sender.send(self.world(), &blocks, address, &mut letters)?;
        Ok(Prepared {
            network: None,
            letters,
            ending,
        })
    }

    /// The people of a network send a packet; where it ended there, its end is answered.
    ///
    /// # Errors
    /// There is no such network, more updates are in flight than there is room for, or memory could
    /// not be had; then nothing is changed.
    pub fn send(&mut self, network: u8, address: Address) -> Result<Option<Ending>, Refusal>
        ensures world { world_of self.new ≡ world_of self.old }
        ensures blocks { blocks_of self.new ≡ blocks_of self.old }
        ensures played { SendingPlayed self.old self.new network address.0 result }
        ensures adds { OnOk result (FateAdded self.old self.new network address.0) }
        ensures fate { OnOk result (SentByFate self.old network address.0) }
    {
        let prepared = self.sent(network, address)?;
        have_room(&prepared.letters)?;
        Ok(self.put(prepared))
    }
}
