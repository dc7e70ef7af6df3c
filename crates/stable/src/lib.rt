//! The stable routing of a block, computed from ties, links and homes alone.
#![tactic(auto)]

mod linked;
mod looking;
mod reaching;
mod routing;

pub use linked::LinkSet;
pub use routing::{Routing, settle};
