//! A set of networks.
ghost use Rattle.std.specs.Prelude.{◌≡◌, ℕ, false, ◌&&◌, ◌||◌, replicate, ◌==◌, if◌then◌else◌, nat_lt, slice_index_or};
ghost use Rattle.model.specs.declared.limits.TheConstants.{MOST_NETWORKS};
ghost use Rattle.selection.specs.Sets.{member};

use relations::MOST;

/// A set of networks, by their numbers, each below 64. It has fixed memory.
#[derive(Clone, Copy)]
pub struct NetworkSet {
    marks: [bool; 64],
}

impl NetworkSet {
    /// The set with no network in it.
    pub fn none() -> NetworkSet
        ensures { (k : ℕ) → member result k ≡ false }
    {
        NetworkSet { marks: unmarked() }
    }

    /// Whether the network is in it.
    pub fn contains(self, network: u8) -> bool
        ensures { result ≡ member self network }
    {
        is_marked(&self.marks, network)
    }

    /// Puts the network in, if it is below 64.
    pub fn insert(&mut self, network: u8)
        ensures { (k : ℕ)
            → member self.new k
            ≡ (member self.old k || (k == network && nat_lt network MOST_NETWORKS)) }
    {
        self.set(network, true);
    }

    /// Puts the network in, or takes it out, if it is below 64: for a link that turns.
    pub fn set(&mut self, network: u8, within: bool)
        ensures { (k : ℕ)
            → member self.new k
            ≡ (if k == network && nat_lt network MOST_NETWORKS
            then within
            else member self.old k) }
    {
        if network < MOST {
            self.marks[network as usize] = within;
        }
    }

    /// Whether each of the 64 networks is in it, by number.
    pub fn as_slice(&self) -> &[bool]
        ensures { result.now ≡ self.now.marks }
    {
        &self.marks
    }
}

/// Whether a network's place in a slice of marks is marked, as in that of the links that are up; one
/// past the slice is not.
pub fn is_marked(marks: &[bool], network: u8) -> bool
    ensures { result ≡ slice_index_or marks.now network false }
{
    marks.get(network as usize).copied().unwrap_or(false)
}

// Apart, since what an array literal holds is known where a contract says it.
fn unmarked() -> [bool; 64]
    ensures { result ≡ replicate MOST_NETWORKS false }
{
    [false; 64]
}
