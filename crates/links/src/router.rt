//! A router: one network's number, and which of its links are up.
mod hearing;
mod methods;
mod reading;
mod turning;

use selection::NetworkSet;

/// The small state of a router, handed back by each step; its tables, and what all networks share,
/// are lent to it.
#[derive(Clone, Copy)]
pub struct Router {
    number: u8,
    up: NetworkSet,
}
