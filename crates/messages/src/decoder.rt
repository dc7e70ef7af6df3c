// Reading a message.
ghost use Rattle.std.specs.Prelude.{◌≡◌, ◌+◌, ◌≤◌, length, drop, Ok, Err, IfErr, IfOk};
ghost use Rattle.wire.specs.Reading.{input, place};
ghost use Rattle.messages.specs.Encoding.{bytes_of};
ghost use Rattle.messages.specs.Lowest.{TellsLowest};
ghost use Rattle.messages.specs.Kinds.{number};
ghost use Rattle.messages.specs.Parts.{IsMessage, IsPacket, IsPathAt, IsThing, IsTurn, IsWay, ReadAs};
ghost use Rattle.messages.specs.Places.{block, kind as kind_in, most_networks};
ghost use Rattle.messages.specs.Reading.{message_at};
ghost use Rattle.messages.specs.Values.{Zeroed, message_of};

use crate::cause::Cause;
use crate::kind::Kind;
use crate::message::{Message, Thing, path_fits};
use advertisement::{Announcement, Update};
use forwarding::Packet;
use text::Address;
use wire::Reader;

// The networks of a path, and zeros past them.
fn read_path(reader: &mut Reader, networks: u8) -> Option<[u8; 64]>
    requires few { networks ≤ most_networks }
    requires there { place reader.old ≤ length (input reader.old) }
    ensures source { input reader.new ≡ input reader.old }
    ensures path { IsPathAt (input reader.old) (place reader.old) networks result }
{
    let mut path = [0; 64];
    for k in 0..networks {
        path[k as usize] = reader.byte()?;
    }
    Some(path)
}

// A way, after its kind. Each answer of the reader is taken apart by `let .. else`: of the forms asked for in
// docs/DECISIONS.md, that is the one for this place.
fn read_way(reader: &mut Reader) -> Result<Announcement, Cause>
    requires start { place reader.old ≡ 2 }
    requires kind { kind_in (input reader.old) ≡ number Kind.Way }
    requires there { 2 ≤ length (input reader.old) }
    ensures { ReadAs (IsWay (input reader.old)) (input reader.old) result }
{
    let Some(block) = reader.word() else {
        return Err(Cause::Cut);
    };
    let Some(length) = reader.byte() else {
        return Err(Cause::Cut);
    };
    if !path_fits(usize::from(length)) {
        return Err(Cause::BadLength);
    }
    let Some(networks) = read_path(reader, length) else {
        return Err(Cause::Cut);
    };
    Ok(Announcement {
        block,
        length,
        networks,
    })
}

// The block of a withdrawal, after its kind. By `let .. else`, as `read_way`.
fn read_withdrawal(reader: &mut Reader) -> Result<u16, Cause>
    requires start { place reader.old ≡ 2 }
    requires kind { kind_in (input reader.old) ≡ number Kind.Withdrawal }
    requires there { 2 ≤ length (input reader.old) }
    ensures { ReadAs (λ b. b ≡ block (input reader.old)) (input reader.old) result }
{
    let Some(block) = reader.word() else {
        return Err(Cause::Cut);
    };
    Ok(block)
}

// A packet, after its kind. By `let .. else`, as `read_way`.
fn read_packet(reader: &mut Reader) -> Result<Packet, Cause>
    requires start { place reader.old ≡ 2 }
    requires kind { kind_in (input reader.old) ≡ number Kind.Packet }
    requires there { 2 ≤ length (input reader.old) }
    ensures { ReadAs (IsPacket (input reader.old)) (input reader.old) result }
{
    let Some(address) = reader.long() else {
        return Err(Cause::Cut);
    };
    let Some(hops) = reader.byte() else {
        return Err(Cause::Cut);
    };
    Ok(Packet {
        address: Address(address),
        hops,
    })
}

// The other end of a link that turns and whether it is up, after the kind. By `let .. else`, as `read_way`.
fn read_turn(reader: &mut Reader) -> Result<(u8, bool), Cause>
    requires start { place reader.old ≡ 2 }
    requires kind { kind_in (input reader.old) ≡ number Kind.Turn }
    requires there { 2 ≤ length (input reader.old) }
    ensures { ReadAs (IsTurn (input reader.old)) (input reader.old) result }
{
    let Some(other) = reader.byte() else {
        return Err(Cause::Cut);
    };
    let Some(state) = reader.byte() else {
        return Err(Cause::Cut);
    };
    match state {
        0 => Ok((other, false)),
        1 => Ok((other, true)),
        _ => Err(Cause::NeitherUpNorDown),
    }
}

// A thing, after its network.
fn read_thing(reader: &mut Reader) -> Result<Thing, Cause>
    requires start { place reader.old ≡ 1 }
    ensures { ReadAs (IsThing (input reader.old)) (input reader.old) result }
{
    let Some(kind) = reader.byte() else {
        return Err(Cause::Cut);
    };
    match Kind::try_from(kind)? {
        Kind::Way => Ok(Thing::Update(Update::Announce(read_way(reader)?))),
        Kind::Withdrawal => Ok(Thing::Update(Update::withdraw(read_withdrawal(reader)?))),
        Kind::Packet => Ok(Thing::Packet(read_packet(reader)?)),
        Kind::Turn => {
            let (other, up) = read_turn(reader)?;
            Ok(Thing::Turn { other, up })
        }
    }
}

// A message, at the front of the bytes.
fn read_message(bytes: &[u8]) -> Result<Message, Cause>
    ensures { ReadAs (IsMessage bytes.now) bytes.now result }
{
    let mut reader = Reader::new(bytes);
    let Some(network) = reader.byte() else {
        return Err(Cause::Cut);
    };
    let thing = read_thing(&mut reader)?;
    Ok(Message { network, thing })
}

// What stands behind a message at the front of the bytes.
fn behind<'a>(bytes: &'a [u8], message: &Message) -> &'a [u8]
    requires { length (bytes_of (message_of message.now)) ≤ length bytes.now }
    ensures { result.now ≡ drop (length (bytes_of (message_of message.now))) bytes.now }
{
    &bytes[message.size()..]
}

/// The message at the front of the bytes, and what is left behind it; or the first in their order of the causes why there is
/// none. Past its length the array of an announcement holds zeros.
#[tactic(auto, using(crate::proofs::Back::read_is, crate::proofs::Lowest::clean_lowest, crate::proofs::Lowest::cause_lowest))]
pub fn read(bytes: &[u8]) -> Result<(Message, &[u8]), Cause>
    ensures ok { IfOk result (λ read. message_at bytes.now ≡ Ok (message_of read.0, read.1.now)) }
    ensures err { IfErr result (λ cause. message_at bytes.now ≡ Err cause) }
    ensures zeros { IfOk result (λ read. Zeroed read.0.thing) }
    ensures lowest { TellsLowest bytes.now result }
{
    let message = read_message(bytes)?;
    let rest = behind(bytes, &message);
    Ok((message, rest))
}
