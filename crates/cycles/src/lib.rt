//! Cycles of customers: the search for the first of them, and sound relations where there is none.
#![tactic(auto)]

mod check;
mod search;
mod walk;

pub use check::{Unsound, sound};
pub use search::first_cycle;
