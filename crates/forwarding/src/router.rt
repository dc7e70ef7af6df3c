//! What a router does with packets.
ghost use Rattle.std.specs.Prelude.{◌≡◌, ℕ, Result};
ghost use Rattle.blocks.specs.declared.blocks.Blocks.{Blocks as Ranges};
ghost use Rattle.model.specs.Packets.{by_choice, hand as rule};
ghost use Rattle.model.specs.declared.fault.Fault.{Fault as Refused};
ghost use Rattle.selection.specs.Meaning.{meaning};
ghost use Rattle.selection.specs.declared.world.World.{World as Lent};
ghost use Rattle.links.specs.Answers.{Refuses};
ghost use Rattle.links.specs.declared.tables.Tables.{Tables as Held};
ghost use Rattle.forwarding.specs.Forwarding.{GotBy, forwarded_by, forwarded_of, packet_of, sender_fault};
ghost use Rattle.forwarding.specs.declared.packet.Forwarded.{Forwarded as Became};
ghost use Rattle.forwarding.specs.declared.packet.Packet.{Packet as Sent};

use crate::packet::{Forwarded, Packet};
use blocks::Blocks;
use links::{Router, Tables};
use model::{DropReason, Fault};
use selection::{Route, World};

/// What a router does with packets. Tables are read only, and the router is as it was.
pub trait Forwarding {
    ghost sends: { Self → Lent → Held → Ranges → Sent → Became → Type 0 };

    ghost forwards: { Self → Lent → Held → Ranges → ℕ → Sent → Result Became Refused → Type 0 };

    /// What becomes of a packet of the network's own people. A block that the tables are not of
    /// counts as none.
    fn send(
        self,
        world: World<'_>,
        tables: &Tables,
        blocks: &Blocks<'_>,
        packet: Packet,
    ) -> Forwarded
        ensures { sends self world.entry tables.now blocks.now packet result };

    /// What becomes of a packet from another network.
    ///
    /// # Errors
    /// A network that is not there, not related, or whose link is down.
    fn forward(
        self,
        world: World<'_>,
        tables: &Tables,
        blocks: &Blocks<'_>,
        from: u8,
        packet: Packet,
    ) -> Result<Forwarded, Fault>
        ensures { forwards self world.entry tables.now blocks.now from packet result };
}

// Refuses a network that is not there, not related, or whose link is down.
fn check_sender(router: Router, world: World<'_>, tables: &Tables, from: u8) -> Result<(), Fault>
    ensures { Refuses (sender_fault router world.entry tables.now from) result }
{
    if from >= world.relations.networks() {
        return Err(Fault::NoSuchNetwork);
    }
    if !world.relations.relation(router.number(), from).is_related() {
        return Err(Fault::NotRelated);
    }
    if !router.is_up(from) {
        return Err(Fault::LinkDown);
    }
    Ok(())
}

// Handed to a neighbour with one hop less, if one is left.
fn hand(neighbour: u8, packet: Packet) -> Forwarded
    ensures { forwarded_of result
        ≡ rule (packet_of packet).address neighbour (packet_of packet).hops }
{
    match packet.hops.checked_sub(1) {
        Some(hops) => Forwarded::Handed {
            neighbour,
            packet: Packet {
                address: packet.address,
                hops,
            },
        },
        None => Forwarded::Dropped(DropReason::NoHops),
    }
}

// The way of a route. At its home a packet has arrived, however many hops are left.
fn along(route: Route<'_>, packet: Packet) -> Forwarded
    ensures { forwarded_of result ≡ by_choice (packet_of packet) (meaning route.entry) }
{
    match route {
        Route::Nothing => Forwarded::Dropped(DropReason::NoRoute),
        Route::Local => Forwarded::Arrived,
        Route::Via { neighbour, .. } => hand(neighbour, packet),
    }
}

impl Forwarding for Router {
    ghost sends = { λ router world tables blocks packet became.
        forwarded_of became ≡ forwarded_by router world tables blocks (packet_of packet) };

    ghost forwards = { λ router world tables blocks from packet answer.
        GotBy router world tables blocks from (packet_of packet) answer };

    fn send(
        self,
        world: World<'_>,
        tables: &Tables,
        blocks: &Blocks<'_>,
        packet: Packet,
    ) -> Forwarded {
        match blocks.find(packet.address) {
            Some(block) if block < tables.blocks() => {
                along(self.route(world, tables, block), packet)
            }
            _ => Forwarded::Dropped(DropReason::NoBlock),
        }
    }

    fn forward(
        self,
        world: World<'_>,
        tables: &Tables,
        blocks: &Blocks<'_>,
        from: u8,
        packet: Packet,
    ) -> Result<Forwarded, Fault> {
        check_sender(self, world, tables, from)?;
        Ok(self.send(world, tables, blocks, packet))
    }
}
