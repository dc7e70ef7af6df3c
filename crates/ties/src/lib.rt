//! The ties file: relations between networks as bytes, read exactly, told of and written, and why a file is refused.
#![tactic(auto)]

mod account;
mod decoder;
mod encoder;
mod kind;
mod laws;
mod refusal;
mod tie;
mod wording;

pub use account::{Summary, count_ties};
pub use decoder::read;
pub use encoder::{TIES, encode};
pub use kind::{Kind, UnknownKind};
pub use laws::{
    encoded_is_faultless, faultless_is_encoded, what_is_encoded_reads_back,
    what_is_read_encodes_back,
};
pub use refusal::{Cause, Place, Refusal};
pub use text::Fault;
