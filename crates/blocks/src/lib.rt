//! Blocks of addresses, no two of which overlap and each of which has one home, and the block file: read exactly, written, and why it is refused.
#![tactic(auto)]

mod block_list;
mod blocks;
mod decoder;
mod encoder;
mod laws;
mod refusal;
mod thing;
mod wording;

pub use block_list::{Block, BlockList, MOST, Unfit};
pub use blocks::Blocks;
pub use decoder::read;
pub use encoder::{BLOCKS, encode};
pub use laws::{
    encoded_is_faultless, faultless_is_encoded, no_two_overlap, sharing_is_an_address_in_both,
    what_is_encoded_reads_back, what_is_read_encodes_back,
};
pub use refusal::{Cause, Place, Refusal};
pub use text::Fault;
