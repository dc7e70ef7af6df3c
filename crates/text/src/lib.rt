//! Text that the programs print: numbers in a row, and faults.
#![tactic(auto)]

mod address;
mod faults;
mod numbers;

pub use address::Address;
pub use faults::{Fault, Numbered};
pub use numbers::Row;
