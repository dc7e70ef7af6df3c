//! What all networks share, lent to each.
ghost use Rattle.std.specs.Prelude.{◌≡◌};
ghost use Rattle.selection.specs.Worlds.{is_home_of};

use relations::Relations;

/// What the networks are to each other, and where the addresses of each block are at home. A link
/// may be up between any two related networks. What a later rule lets vary, as preferences or
/// costs, stands here too.
#[derive(Clone, Copy)]
pub struct World<'a> {
    /// what the networks are to each other
    pub relations: &'a Relations,
    /// by block, the network where its addresses are at home
    pub homes: &'a [u8],
}

impl World<'_> {
    /// Whether the addresses of a block are at home at a network; those of a block that there is
    /// not are so nowhere.
    pub fn is_home(self, block: u16, network: u8) -> bool
        ensures { result ≡ is_home_of self.entry block network }
    {
        self.homes.get(block as usize) == Some(&network)
    }
}
