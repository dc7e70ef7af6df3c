//! What networks are to each other: customer, provider or peer; both ends say the same, and no
//! cycle of customers.
#![tactic(auto)]

mod matrix;
mod sound;

pub use matrix::Matrix;
pub use model::{MOST_NETWORKS as MOST, Relation};
pub use sound::Relations;
