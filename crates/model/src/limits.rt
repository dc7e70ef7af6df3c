//! How many there may be.

/// The most networks that there may be, and the most that a path may have: a row of relations or of
/// paths has a place for each.
pub const MOST_NETWORKS: u8 = 64;

/// The hops that a packet has when people send it.
pub const MOST_HOPS: u8 = 255;
