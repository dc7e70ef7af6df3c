//! One network: its router, and what it holds.
use links::{Router, Tables};

mod carrying;
mod sending;
mod stepping;

pub(crate) use stepping::turn_both;

/// A network's router with its tables.
#[derive(Drop)]
pub(crate) struct Network {
    pub router: Router,
    pub tables: Tables,
}
