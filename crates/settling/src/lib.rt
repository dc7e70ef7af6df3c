//! What `settle` and the gate's program share: ties that are checked, and blocks whose stable routing is printed.
#![tactic(auto)]

mod performing;
mod refused;

pub use performing::{check, settle};
pub use refused::{Failure, Refused, Told};
