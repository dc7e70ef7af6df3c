//! That boxes whose bytes are carried in order keep the promise of the model.
#![tactic(auto)]

mod laws;

pub use laws::{boxes_keep_the_promise, bytes_keep_the_promise};
