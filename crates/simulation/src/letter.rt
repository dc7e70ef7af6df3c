//! What is on its way from one network to another.
ghost use Rattle.std.specs.Prelude.{◌≡◌, ◌||◌};
ghost use Rattle.simulation.specs.Posting.{is_update};
ghost use Rattle.simulation.specs.Posts.{goes, meant};

use advertisement::Update;
use forwarding::Packet;

/// What goes over a link.
#[derive(Clone, Copy)]
pub enum Item {
    /// what a network tells of a block
    Update(Update),
    /// a packet, with the hops that it has left
    Packet(Packet),
}

/// What one network sent to another.
#[derive(Clone, Copy)]
pub struct Letter {
    pub from: u8,
    pub to: u8,
    pub item: Item,
}

impl Letter {
    // Whether it goes from one network to another.
    pub(crate) fn goes(&self, from: u8, to: u8) -> bool
        ensures { result ≡ goes from to (meant self.now) }
    {
        self.from == from && self.to == to
    }

    // Whether it is an update.
    pub(crate) fn is_update(&self) -> bool
        ensures { result ≡ is_update (meant self.now).what }
    {
        matches!(self.item, Item::Update(_))
    }

    // Whether it goes over the link of two networks, either way.
    pub(crate) fn crosses(&self, one: u8, other: u8) -> bool
        ensures { result ≡ (goes one other (meant self.now) || goes other one (meant self.now)) }
    {
        self.goes(one, other) || self.goes(other, one)
    }
}
