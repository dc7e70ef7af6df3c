//! One village's router as it runs in its box: bytes in, bytes out. `answer` says what it does with each message.
#![tactic(auto)]

mod fault;
mod packets;
mod refusal;
mod speaking;
mod telling;
mod turns;
mod updates;

pub use fault::Fault;
pub use refusal::Refusal;
pub use speaking::{answer, room};
