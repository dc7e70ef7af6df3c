//! Why a packet is dropped.

/// Why a packet is dropped at a network that is no home of its address.
#[derive(Clone, Copy, Debug, PartialEq, Eq)]
pub enum DropReason {
    /// no block holds its address
    NoBlock,
    /// the network goes by nothing for the block
    NoRoute,
    /// no hop is left
    NoHops,
}
