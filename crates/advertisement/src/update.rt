//! What one network tells another of a block: a path, or that it takes back what it told.
ghost use Rattle.std.specs.Prelude.{◌≡◌, ◌≤◌, ◌&&◌, length, is_some, IfSome, Some, None, nat_le, nat_lt};
ghost use Rattle.std.specs.Option.{option_map};
ghost use Rattle.selection.specs.Paths.{row};
ghost use Rattle.model.specs.Paths.{path_over};
ghost use Rattle.model.specs.declared.limits.TheConstants.{MOST_NETWORKS};
ghost use Rattle.advertisement.specs.Updates.{block_of, networks_of, said};

use relations::MOST;
use selection::PathTable;

/// A path for a block, as its sender made it: the first `length` of the networks, the sender first
/// and the home last. What stands past them says nothing. Who hears it refuses a length of 0 or
/// above 64.
#[derive(Clone, Copy)]
pub struct Announcement {
    pub block: u16,
    pub length: u8,
    pub networks: [u8; 64],
}

/// What one network tells another of a block: a path, or that it takes back what it told.
#[derive(Clone, Copy)]
pub enum Update {
    Announce(Announcement),
    Withdraw { block: u16 },
}

impl Announcement {
    /// The path, as the part of the array where it stands; none for a length of 0 or above 64.
    pub fn path(&self) -> Option<&[u8]>
        ensures { option_map (λ x. x.now) result ≡ networks_of self.now }
    {
        if self.length == 0 {
            return None;
        }
        self.networks.get(..self.length as usize)
    }
}

impl Update {
    /// The announcement of a path; none for a path of no network or of more than 64.
    pub fn announce(block: u16, path: &[u8]) -> Option<Self>
        ensures test { is_some result
            ≡ (nat_lt 0 (length path.now) && nat_le (length path.now) MOST_NETWORKS) }
        ensures says { IfSome result
            (λ u. (block_of u ≡ block) × (said u ≡ Some (path_over path.now))) }
    {
        if path.is_empty() || path.len() > MOST as usize {
            return None;
        }
        Some(announced(block, path))
    }

    /// What takes back the path of a block.
    pub fn withdraw(block: u16) -> Self
        ensures { (block_of result ≡ block) × (said result ≡ None) }
    {
        Self::Withdraw { block }
    }

    /// The block that it is of.
    pub fn block(&self) -> u16
        ensures { result ≡ block_of self.now }
    {
        match self {
            Update::Announce(announcement) => announcement.block,
            Update::Withdraw { block } => *block,
        }
    }
}

/// What stands in a row of the table, as the update that tells it.
pub fn update_of(table: &PathTable, block: u16, neighbour: u8) -> Update
    ensures { (block_of result ≡ block) × (said result ≡ row table.now block neighbour) }
{
    match table.path(block, neighbour) {
        Some(path) => announced(block, path),
        None => Update::withdraw(block),
    }
}

// The announcement of a path that fits.
fn announced(block: u16, path: &[u8]) -> Update
    requires { length path.now ≤ MOST_NETWORKS }
    ensures { (block_of result ≡ block) × (said result ≡ Some (path_over path.now)) }
{
    let mut networks = [0; 64];
    networks[..path.len()].copy_from_slice(path);
    Update::Announce(Announcement {
        block,
        length: path.len() as u8,
        networks,
    })
}
