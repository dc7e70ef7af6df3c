//! Bytes that are read one after the other, high byte first.
#![tactic(auto)]

mod reader;

pub use reader::Reader;
