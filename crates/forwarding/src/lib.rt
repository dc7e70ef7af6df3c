//! Packets: from a network's people or a neighbour to the home of a block, or until they are
//! dropped.
#![tactic(auto)]

mod packet;
mod router;

pub use model::DropReason;
pub use packet::{Ending, Fate, Forwarded, Packet};
pub use router::Forwarding;
