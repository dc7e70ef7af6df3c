//! What a network tells its neighbours.
#![tactic(auto)]

mod policy;
mod telling;
mod update;

pub use policy::may_tell;
pub use telling::{advertise, tell};
pub use update::{Announcement, Update, update_of};
