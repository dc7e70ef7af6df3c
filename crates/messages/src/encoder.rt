// Writing messages.
ghost use Rattle.std.specs.Prelude.{◌≡◌, ◌+◌, ◌≤◌, [], ◌∷◌, ◌++◌, length, IsOk, None, Some, vec_capacity, vec_len};
ghost use Rattle.std.specs.Option.{option_map};
ghost use Rattle.advertisement.specs.Updates.{said};
ghost use Rattle.advertisement.specs.declared.update.Update.TheVariants.{Announce};
ghost use Rattle.forwarding.specs.Forwarding.{packet_of};
ghost use Rattle.model.specs.Paths.{path_over};
ghost use Rattle.messages.specs.Encoding.{block_bytes, bytes_of, thing_bytes, update_bytes};
ghost use Rattle.messages.specs.Kinds.{number};
ghost use Rattle.messages.specs.Meaning.{packet as carried, turn as turned};
ghost use Rattle.messages.specs.Values.{message_of};
ghost use Rattle.messages.specs.Writing.{appended, packet_written, update_written};

use crate::kind::Kind;
use crate::message::{BEFORE_PATH, Message, Thing, path_fits};
use advertisement::{Announcement, Update};
use forwarding::Packet;
use std::alloc::AllocError;

// What stands of a way before its path.
fn way_head(network: u8, block: u16, length: u8) -> [u8; BEFORE_PATH]
    ensures { result ≡ network ∷ number Kind.Way ∷ block_bytes block ++ length ∷ [] }
{
    let [high, low] = block.to_be_bytes();
    [network, Kind::Way.into(), high, low, length]
}

// A withdrawal to a network.
fn withdrawal(network: u8, block: u16) -> [u8; 4]
    ensures { result ≡ network ∷ update_bytes block None }
{
    let [high, low] = block.to_be_bytes();
    [network, Kind::Withdrawal.into(), high, low]
}

// A packet to a network.
fn packet(network: u8, sent: Packet) -> [u8; 7]
    ensures { result ≡ network ∷ thing_bytes (carried (packet_of sent)) }
{
    let [a, b, c, d] = sent.address.0.to_be_bytes();
    [network, Kind::Packet.into(), a, b, c, d, sent.hops]
}

// A turn of a link, to a network.
fn turn(network: u8, other: u8, up: bool) -> [u8; 4]
    ensures { result ≡ network ∷ thing_bytes (turned other up) }
{
    [network, Kind::Turn.into(), other, u8::from(up)]
}

// Writes a way along a path: its head and then the path, of which room is made for both.
fn write_way(out: &mut Vec<u8>, network: u8, block: u16, path: &[u8]) -> Result<(), AllocError>
    ensures items { out.new.items
        ≡ appended result out.old.items (update_written network block (Some (path_over path.now))) }
    ensures room { vec_len out.old + length (update_written network block (Some (path_over path.now)))
        ≤ vec_capacity out.old
        → IsOk result }
    ensures capacity { vec_capacity out.old ≤ vec_capacity out.new }
{
    if !path_fits(path.len()) {
        return Ok(());
    }
    out.reserve(BEFORE_PATH + path.len())?;
    out.extend_from_slice(&way_head(network, block, path.len() as u8))?;
    out.extend_from_slice(path)
}

/// Writes behind what stands there what a network is told of a block: the way along a path, or that what it was told is taken
/// back. Of a path of no network or of more than 64 nothing is written. Where memory ends nothing is changed; it does not
/// where there is room.
pub fn write_update(
    out: &mut Vec<u8>,
    network: u8,
    block: u16,
    path: Option<&[u8]>,
) -> Result<(), AllocError>
    ensures items { out.new.items
        ≡ appended result out.old.items
        (update_written network block (option_map (λ x. path_over x.now) path.entry)) }
    ensures room { vec_len out.old + length (update_written network block (option_map (λ x. path_over x.now) path.entry))
        ≤ vec_capacity out.old
        → IsOk result }
    ensures capacity { vec_capacity out.old ≤ vec_capacity out.new }
{
    match path {
        Some(path) => write_way(out, network, block, path),
        None => out.extend_from_slice(&withdrawal(network, block)),
    }
}

/// Writes a packet to a network behind what stands there. Where memory ends nothing is changed; it does not where there is room.
pub fn write_packet(out: &mut Vec<u8>, network: u8, sent: Packet) -> Result<(), AllocError>
    ensures items { out.new.items
        ≡ appended result out.old.items (packet_written network (packet_of sent)) }
    ensures room { vec_len out.old + length (packet_written network (packet_of sent))
        ≤ vec_capacity out.old
        → IsOk result }
    ensures capacity { vec_capacity out.old ≤ vec_capacity out.new }
{
    out.extend_from_slice(&packet(network, sent))
}

// Writes an announcement to a network; nothing of a path that has no networks or more than 64.
fn write_announcement(out: &mut Vec<u8>, network: u8, way: &Announcement) -> Result<(), AllocError>
    ensures items { out.new.items
        ≡ appended result out.old.items
        (update_written network way.now.block (said (Announce way.now))) }
    ensures room { vec_len out.old
        + length (update_written network way.now.block (said (Announce way.now)))
        ≤ vec_capacity out.old
        → IsOk result }
    ensures capacity { vec_capacity out.old ≤ vec_capacity out.new }
{
    match way.path() {
        Some(path) => write_way(out, network, way.block, path),
        None => Ok(()),
    }
}

/// Writes a message behind what stands there. Of an announcement of a path that has no networks or more than 64 nothing is
/// written. Where memory ends nothing is changed; it does not where there is room for the message.
pub fn write(out: &mut Vec<u8>, message: &Message) -> Result<(), AllocError>
    ensures items { out.new.items
        ≡ appended result out.old.items (bytes_of (message_of message.now)) }
    ensures room { vec_len out.old + length (bytes_of (message_of message.now))
        ≤ vec_capacity out.old
        → IsOk result }
    ensures capacity { vec_capacity out.old ≤ vec_capacity out.new }
{
    match &message.thing {
        Thing::Update(Update::Announce(way)) => write_announcement(out, message.network, way),
        Thing::Update(Update::Withdraw { block }) => {
            write_update(out, message.network, *block, None)
        }
        Thing::Packet(sent) => write_packet(out, message.network, *sent),
        Thing::Turn { other, up } => out.extend_from_slice(&turn(message.network, *other, *up)),
    }
}
