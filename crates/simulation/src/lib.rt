//! All networks in memory: n routers, and what is in flight between them.
#![tactic(auto)]

mod cause;
mod laws;
mod letter;
mod network;
mod posting;
mod prepared;
mod simulation;
mod wording;

pub use cause::{Cause, Refusal};
pub use laws::{limits_as_told, rest_hears};
pub use links::CreationError;
pub use simulation::{MOST_BLOCKS, MOST_NETWORKS, Simulation};
