//! Packets: what becomes of one at a network, and how it ends.
ghost use Rattle.std.specs.Prelude.{◌≡◌, ◌-◌};
ghost use Rattle.std.specs.Option.{option_map};
ghost use Rattle.model.specs.Ends.{end_at};
ghost use Rattle.model.specs.Run.{fresh as fresh_packet};
ghost use Rattle.model.specs.declared.limits.TheConstants.{MOST_HOPS};
ghost use Rattle.forwarding.specs.Forwarding.{ended_of, packet_of, forwarded_of};

use model::{DropReason, MOST_HOPS};
use text::Address;

/// An address, and how many hops are left.
#[derive(Clone, Copy, Debug)]
pub struct Packet {
    /// where it goes
    pub address: Address,
    /// how many hops are left
    pub hops: u8,
}

/// What becomes of a packet at a network.
#[derive(Clone, Copy, Debug)]
pub enum Forwarded {
    /// it is at a home of its address
    Arrived,
    /// it goes no further
    Dropped(DropReason),
    /// to a neighbour, with one hop less
    Handed { neighbour: u8, packet: Packet },
}

/// How a packet ended.
#[derive(Clone, Copy, Debug, PartialEq, Eq)]
pub enum Fate {
    Arrived,
    Dropped(DropReason),
}

/// The end of a packet: for which address it was, where it ended and after how many steps.
#[derive(Clone, Copy, Debug)]
pub struct Ending {
    pub address: Address,
    pub network: u8,
    pub steps: u8,
    pub fate: Fate,
}

impl Packet {
    /// A packet as people send it.
    pub fn new(address: Address) -> Packet
        ensures { packet_of result ≡ fresh_packet address.0 }
    {
        Packet {
            address,
            hops: MOST_HOPS,
        }
    }

    // Its end at a network, as a fate.
    fn ended(self, network: u8, fate: Fate) -> Ending
        ensures address { result.address ≡ self.address }
        ensures network { result.network ≡ network }
        ensures steps { result.steps ≡ MOST_HOPS - self.hops }
        ensures fate { result.fate ≡ fate }
    {
        Ending {
            address: self.address,
            network,
            steps: MOST_HOPS - self.hops,
            fate,
        }
    }

    /// Its end at a network where this becomes of it; none where it is handed on.
    pub fn ending(self, network: u8, forwarded: Forwarded) -> Option<Ending>
        ensures { option_map ended_of result
            ≡ end_at network (packet_of self) (forwarded_of forwarded) }
    {
        match forwarded {
            Forwarded::Arrived => Some(self.ended(network, Fate::Arrived)),
            Forwarded::Dropped(why) => Some(self.ended(network, Fate::Dropped(why))),
            Forwarded::Handed { .. } => None,
        }
    }
}
