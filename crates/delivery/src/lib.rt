//! What becomes of packets: each ends exactly once, and where the stable routing says.
#![tactic(auto)]

mod laws;

pub use laws::{
    each_ends_once, every_fate_ends, every_packet_ends, fates_at_home, hearing_keeps, hops_fall,
    hops_within, none_lost, one_end, posting_adds, sent_arrives, sent_ends_once,
};
