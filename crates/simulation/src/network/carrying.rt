//! A network's packets: each goes on as a letter, or ends.
ghost use Rattle.std.specs.Prelude.{◌≡◌, IfOk};
ghost use Rattle.model.specs.Run.{fresh};
ghost use Rattle.forwarding.specs.Forwarding.{packet_of, forwarded_of};
ghost use Rattle.simulation.specs.Whole.{Carried, Forwards, Got};

use crate::letter::{Item, Letter};
use crate::network::Network;
use blocks::Blocks;
use forwarding::{Ending, Forwarded, Forwarding, Packet};
use selection::World;
use std::alloc::AllocError;
use text::Address;

impl Network {
    // A packet goes on, or ends, as its router says.
    fn pass_on(
        &self,
        packet: Packet,
        forwarded: Forwarded,
        letters: &mut Vec<Letter>,
    ) -> Result<Option<Ending>, AllocError>
        ensures { IfOk result (Carried self.now (packet_of packet) (forwarded_of forwarded)
            letters.old.items letters.new.items) }
    {
        let from = self.router.number();
        if let Forwarded::Handed { neighbour, packet } = forwarded {
            let item = Item::Packet(packet);
            letters.push(Letter {
                from,
                to: neighbour,
                item,
            })?;
        }
        Ok(packet.ending(from, forwarded))
    }

    /// A packet comes from another network. A refused one ends without a word, and no letter is
    /// sent.
    pub fn carry(
        &self,
        world: World<'_>,
        blocks: &Blocks<'_>,
        from: u8,
        packet: Packet,
        letters: &mut Vec<Letter>,
    ) -> Result<Option<Ending>, AllocError>
        ensures { IfOk result (Got world.entry self.now blocks.now from (packet_of packet)
            letters.old.items letters.new.items) }
    {
        match self
            .router
            .forward(world, &self.tables, blocks, from, packet)
        {
            Ok(forwarded) => self.pass_on(packet, forwarded, letters),
            Err(_) => Ok(None),
        }
    }

    /// Its people send a packet.
    pub fn send(
        &self,
        world: World<'_>,
        blocks: &Blocks<'_>,
        address: Address,
        letters: &mut Vec<Letter>,
    ) -> Result<Option<Ending>, AllocError>
        ensures { IfOk result (Forwards world.entry self.now blocks.now (fresh address.0)
            letters.old.items letters.new.items) }
    {
        let packet = Packet::new(address);
        let forwarded = self.router.send(world, &self.tables, blocks, packet);
        self.pass_on(packet, forwarded, letters)
    }
}
