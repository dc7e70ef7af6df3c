// What a router hears and tells.
ghost use Rattle.std.specs.Prelude.{◌≡◌, ◌+◌, length, if◌then◌else◌};
ghost use Rattle.messages.specs.Encoding.{bytes_of};
ghost use Rattle.messages.specs.Places.{before_path, fits};
ghost use Rattle.messages.specs.Values.{message_of};

use advertisement::{Announcement, Update};
use forwarding::Packet;
use relations::MOST;

/// What is heard or told.
#[derive(Clone, Copy)]
pub enum Thing {
    Update(Update),
    Packet(Packet),
    /// the link to another network comes up or goes down
    Turn { other: u8, up: bool },
}

/// A thing, and the network that it comes from or goes to.
#[derive(Clone, Copy)]
pub struct Message {
    pub network: u8,
    pub thing: Thing,
}

// How many bytes stand of a way before its path.
pub(crate) const BEFORE_PATH: usize = 5;

/// No message has more bytes than a way of the most networks.
pub const MOST_BYTES: usize = BEFORE_PATH + MOST as usize;

// A path has 1 to 64 networks.
pub(crate) fn path_fits(length: usize) -> bool
    ensures { result ≡ fits length }
{
    length != 0 && length <= usize::from(MOST)
}

// How many bytes stand for a way.
fn way_size(way: &Announcement) -> usize
    ensures { result ≡ (if fits way.now.length then before_path + way.now.length else 0) }
{
    match way.path() {
        Some(_) => BEFORE_PATH + usize::from(way.length),
        None => 0,
    }
}

#[tactic(auto, using(crate::proofs::Sizes::way_bytes))]
impl Message {
    /// How many bytes stand for it: none for an announcement of a path that has no networks or more than 64.
    pub fn size(&self) -> usize
        ensures { result ≡ length (bytes_of (message_of self.now)) }
    {
        match &self.thing {
            Thing::Update(Update::Announce(way)) => way_size(way),
            Thing::Update(Update::Withdraw { .. }) | Thing::Turn { .. } => 4,
            Thing::Packet(_) => 7,
        }
    }
}
