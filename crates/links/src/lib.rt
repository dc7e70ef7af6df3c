//! One network's router: what it hears, selects and tells, over links that fail and come back.
#![tactic(auto)]

mod creation_error;
mod paths;
mod router;
mod tables;

pub use creation_error::CreationError;
pub use model::Fault;
pub use router::Router;
pub use tables::Tables;
