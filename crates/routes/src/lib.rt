//! The text of what networks go by, a line for each, and of a block that is settled.
#![tactic(auto)]

mod account;
mod laws;
mod lines;
mod network_line;

pub use account::Account;
pub use laws::{lines_tell_blocks, lines_tell_routes, lines_tell_ways, settled_is_told};
pub use lines::{BlockLine, RouteLine};
