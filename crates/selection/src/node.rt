//! A network among its neighbours.
use crate::world::World;

/// What all networks share, which of its links are up, and its number. The links are a slice, of
/// any length: one that is not in it is down.
#[derive(Clone, Copy)]
pub struct Node<'a> {
    /// what all networks share
    pub world: World<'a>,
    /// by neighbour, whether the link to it is up
    pub up: &'a [bool],
    /// its own number
    pub me: u8,
}
