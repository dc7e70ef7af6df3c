//! What a router hears and tells, as bytes, high byte first: read at the front of any bytes, and written behind others.
#![tactic(auto)]

mod cause;
mod decoder;
mod encoder;
mod kind;
mod laws;
mod message;

pub use cause::Cause;
pub use decoder::read;
pub use encoder::{write, write_packet, write_update};
pub use laws::{
    a_message_takes_bytes, a_stream_is_read_on, a_stream_reads_back, a_stream_writes_back,
    read_writes_back, what_is_read_has_bytes, written_reads_back,
};
pub use message::{MOST_BYTES, Message, Thing};
