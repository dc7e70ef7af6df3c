//! What a network was told of paths, and which of them it goes by.
#![tactic(auto)]

mod laws;
mod node;
mod route;
mod selecting;
mod set;
mod table;
mod world;

pub use laws::{customers_decide, limit_as_told, same_rows_same_bytes};
pub use node::Node;
pub use route::Route;
pub use selecting::{passes, select};
pub use set::{NetworkSet, is_marked};
pub use table::{MOST_BLOCKS, PathTable};
pub use world::World;
