//! A network's steps, prepared: the network as it is then, with what it sends put behind the
//! letters.
ghost use Rattle.std.specs.Prelude.{IfOk};
ghost use Rattle.advertisement.specs.Updates.{news};
ghost use Rattle.simulation.specs.Whole.{BothTurned, Heard, Turned};

use crate::letter::Letter;
use crate::network::Network;
use advertisement::Update;
use selection::World;
use std::alloc::AllocError;

impl Network {
    /// The network after it heard an update from another.
    pub fn hear(
        &self,
        world: World<'_>,
        from: u8,
        update: Update,
        letters: &mut Vec<Letter>,
    ) -> Result<Network, AllocError>
        ensures { IfOk result
            (Heard world.entry self.now from (news update) letters.old.items letters.new.items) }
    {
        let mut tables = self.tables.clone()?;
        let (router, heard) = self.router.hear(world, &mut tables, from, update);
        let network = Network { router, tables };
        network.post_heard(world.relations.networks(), update.block(), heard, letters)?;
        Ok(network)
    }

    /// The network after its link to another turned.
    pub fn turn(
        &self,
        world: World<'_>,
        other: u8,
        up: bool,
        letters: &mut Vec<Letter>,
    ) -> Result<Network, AllocError>
        ensures { IfOk result
            (Turned world.entry self.now other up letters.old.items letters.new.items) }
    {
        let mut tables = self.tables.clone()?;
        let (router, turned) = self.router.turn(world, &mut tables, other, up);
        let network = Network { router, tables };
        if turned.is_ok() {
            network.post_all(world.relations.networks(), letters)?;
        }
        Ok(network)
    }
}

// Two networks after the link between them turned.
pub(crate) fn turn_both(
    world: World<'_>,
    one: &Network,
    other: &Network,
    up: bool,
    letters: &mut Vec<Letter>,
) -> Result<(Network, Network), AllocError>
    ensures { IfOk result
        (BothTurned world.entry one.now other.now up letters.old.items letters.new.items) }
{
    let first = one.turn(world, other.router.number(), up, letters)?;
    let second = other.turn(world, one.router.number(), up, letters)?;
    Ok((first, second))
}
