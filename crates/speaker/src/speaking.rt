// A box: what it does with the message at the front of its bytes.
ghost use Rattle.std.specs.Prelude.{◌≡◌, ◌+◌, ◌*◌, ◌≤◌, vec_len, vec_capacity, IfErr, OnErr};
ghost use Rattle.forwarding.specs.Forwarding.{lookup};
ghost use Rattle.links.specs.Held.{blocks_of, held, number_of, world_for};
ghost use Rattle.messages.specs.Values.{message_of, thing_of};
ghost use Rattle.speaker.specs.Answers.{Answered, IsForFault, Measured, Obeys, Read, TellsLowest, checks_of, ruled};
ghost use Rattle.speaker.specs.Bytes.{enough, most};
ghost use Rattle.speaker.specs.Rule.{on_message};

use crate::fault::Fault;
use crate::packets::carry;
use crate::refusal::Refusal;
use crate::turns::turn;
use crate::updates::hear;
use blocks::Blocks;
use links::{Router, Tables};
use messages::{Cause, MOST_BYTES, Message, Thing};
use relations::MOST;
use selection::World;

// No more bytes are written of a block, which is told to no more than the most networks.
const MOST_OF_BLOCK: usize = MOST as usize * MOST_BYTES;

// How many bytes a box may write on a thing, where there are so many blocks.
fn most_written(thing: &Thing, blocks: u16) -> usize
    ensures { result ≡ most (thing_of thing.now) blocks }
{
    match thing {
        Thing::Update(_) => MOST_OF_BLOCK,
        Thing::Packet(_) => MOST_BYTES,
        Thing::Turn { .. } => MOST_OF_BLOCK * usize::from(blocks),
    }
}

// The message at the front of the bytes, and how many bytes it has.
fn read(bytes: &[u8]) -> Result<(Message, usize), Cause>
    ensures { Read bytes.now result }
{
    let (message, rest) = messages::read(bytes)?;
    Ok((message, bytes.len() - rest.len()))
}

// Takes a message, or refuses it: then nothing is written.
fn take(
    router: Router,
    world: World<'_>,
    tables: &mut Tables,
    blocks: &Blocks<'_>,
    message: Message,
    out: &mut Vec<u8>,
) -> (Router, Result<(), Fault>)
    requires { vec_len out.old + most (thing_of message.thing) (blocks_of tables.old)
        ≤ vec_capacity out.old }
    ensures number { number_of result.0 ≡ number_of router }
    ensures blocks { blocks_of tables.new ≡ blocks_of tables.old }
    ensures answer { Obeys
        (on_message (world_for world.entry tables.old) (lookup (blocks_of tables.old) blocks.now)
        (number_of router) (held router tables.old) (message_of message))
        (held result.0 tables.new) out.old.items out.new.items result.1 }
    ensures kept { OnErr result.1
        ((result.0 ≡ router) × (tables.new ≡ tables.old) × (out.new ≡ out.old)) }
{
    let from = message.network;
    match message.thing {
        Thing::Update(update) => hear(router, world, tables, from, update, out),
        Thing::Packet(packet) => {
            let carried = carry(router, world, tables, blocks, from, packet, out);
            (router, carried)
        }
        Thing::Turn { other, up } => turn(router, world, tables, from, other, up, out),
    }
}

// A message that was taken or refused, of so many bytes.
fn measured(done: Result<(), Fault>, length: usize) -> Result<usize, Refusal>
    ensures { Measured done length result }
{
    match done {
        Ok(()) => Ok(length),
        Err(fault) => Err(Refusal::Fault {
            fault,
            length: Some(length),
        }),
    }
}

/// How many bytes are to be free behind what is written, that no memory is wanted for the answer to a message.
pub fn room(blocks: u16) -> usize
    ensures { result ≡ enough blocks }
{
    MOST_OF_BLOCK * (usize::from(blocks) + 1)
}

/// What the box of a router does with the message at the front of the bytes, over its tables, the relations and the blocks: it
/// takes it, and writes what it tells behind what was written before, or refuses it, which changes nothing. Memory is had before
/// anything changes. The router is handed back as it is then, as by `Router::turn`.
pub fn answer(
    router: Router,
    world: World<'_>,
    tables: &mut Tables,
    blocks: &Blocks<'_>,
    bytes: &[u8],
    out: &mut Vec<u8>,
) -> (Router, Result<usize, Refusal>)
    ensures number { number_of result.0 ≡ number_of router }
    ensures blocks { blocks_of tables.new ≡ blocks_of tables.old }
    ensures answer { Answered (ruled router world.entry tables.old blocks.now bytes.now)
        (held result.0 tables.new) out.old.items out.new.items result.1 }
    ensures kept { OnErr result.1
        ((result.0 ≡ router) × (tables.new ≡ tables.old) × (out.new.items ≡ out.old.items)) }
    ensures lowest { TellsLowest (checks_of router world.entry tables.old bytes.now) result.1 }
    ensures room { vec_len out.old + enough (blocks_of tables.old) ≤ vec_capacity out.old
        → IfErr result.1 IsForFault }
{
    let (message, length) = match read(bytes) {
        Ok(read) => read,
        Err(cause) => {
            let fault = Fault::NotAMessage(cause);
            return (
                router,
                Err(Refusal::Fault {
                    fault,
                    length: None,
                }),
            );
        }
    };
    if out
        .reserve(most_written(&message.thing, tables.blocks()))
        .is_err()
    {
        return (router, Err(Refusal::Memory));
    }
    let (router, done) = take(router, world, tables, blocks, message, out);
    (router, measured(done, length))
}
