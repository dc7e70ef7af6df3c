// A packet that a box gets.
ghost use Rattle.std.specs.Prelude.{◌≡◌, ◌+◌, ◌≤◌, ◌++◌, vec_len, vec_capacity, OnErr};
ghost use Rattle.messages.specs.Encoding.{stream_of};
ghost use Rattle.messages.specs.Places.{most_bytes};
ghost use Rattle.forwarding.specs.Forwarding.{lookup, packet_of, forwarded_of};
ghost use Rattle.links.specs.Held.{blocks_of, held, number_of, world_for};
ghost use Rattle.speaker.specs.Answers.{IsForwarded, Obeys};
ghost use Rattle.speaker.specs.Rule.{on_packet, packet_messages};

use crate::fault::Fault;
use blocks::Blocks;
use forwarding::{Forwarded, Forwarding, Packet};
use links::{Router, Tables};
use messages::write_packet;
use selection::World;

// The number that stands for a network's own people where a packet has arrived.
const PEOPLE: u8 = 255;

// Writes a packet to where it goes, where there is room for it.
#[tactic(auto, using(crate::proofs::Sizes::packet_most))]
fn write_forwarded(out: &mut Vec<u8>, packet: Packet, forwarded: Forwarded)
    requires { vec_len out.old + most_bytes ≤ vec_capacity out.old }
    ensures { out.new.items
        ≡ out.old.items ++ stream_of (packet_messages (packet_of packet) (forwarded_of forwarded)) }
{
    match forwarded {
        Forwarded::Arrived => write_packet(out, PEOPLE, packet).unwrap(),
        Forwarded::Dropped(_) => {}
        Forwarded::Handed { neighbour, packet } => write_packet(out, neighbour, packet).unwrap(),
    }
}

// What becomes of a packet from the network's own people, or from another network.
fn pass(
    router: Router,
    world: World<'_>,
    tables: &Tables,
    blocks: &Blocks<'_>,
    from: u8,
    packet: Packet,
) -> Result<Forwarded, Fault>
    ensures { IsForwarded
        (world_for world.entry tables.now) (lookup (blocks_of tables.now) blocks.now)
        (number_of router) (held router tables.now) from (packet_of packet) result }
{
    if from == router.number() {
        return Ok(router.send(world, tables, blocks, packet));
    }
    router
        .forward(world, tables, blocks, from, packet)
        .map_err(Fault::Router)
}

// Takes a packet, or refuses it: then nothing is written.
pub(crate) fn carry(
    router: Router,
    world: World<'_>,
    tables: &Tables,
    blocks: &Blocks<'_>,
    from: u8,
    packet: Packet,
    out: &mut Vec<u8>,
) -> Result<(), Fault>
    requires { vec_len out.old + most_bytes ≤ vec_capacity out.old }
    ensures answer { Obeys
        (on_packet (world_for world.entry tables.now) (lookup (blocks_of tables.now) blocks.now)
        (number_of router) (held router tables.now) from (packet_of packet))
        (held router tables.now) out.old.items out.new.items result }
    ensures kept { OnErr result (out.new ≡ out.old) }
{
    let forwarded = pass(router, world, tables, blocks, from, packet)?;
    write_forwarded(out, packet, forwarded);
    Ok(())
}
