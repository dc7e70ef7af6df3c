//! What a router says of itself.
ghost use Rattle.std.specs.Prelude.{◌≡◌};
ghost use Rattle.links.specs.Held.{links_up, number_of};

use crate::router::Router;

impl Router {
    /// The number of its network.
    pub fn number(self) -> u8
        ensures { result ≡ number_of self }
    {
        self.number
    }

    /// Whether its link to a neighbour is up.
    pub fn is_up(self, neighbour: u8) -> bool
        ensures { result ≡ links_up self neighbour }
    {
        self.up.contains(neighbour)
    }
}
