//! Lists of turns: which links are up after them.
#![tactic(auto)]

mod cause;
mod laws;
mod reading;
mod wording;

pub use cause::Cause;
pub use laws::{faults_are_the_first, links_stand_as_last_turned, no_fault_is_passed_over};
pub use reading::read_links;
