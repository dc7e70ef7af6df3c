//! The rules, as definitions that everything else is proved against.
#![tactic(auto)]

mod drop_reason;
mod fault;
mod laws;
mod limits;
mod relation;

pub use drop_reason::DropReason;
pub use fault::Fault;
pub use laws::{
    all_to_customers, begins_with_teller, chosen_is_candidate, first_is_unique, heights_exist,
    held_paths_are_proper, home_by_its_own, lowest_fault_is_told, no_free_ride, none_before_chosen,
    nothing_without_candidate, only_choice, rank_decides, same_saying_decides, strict_order,
};
pub use limits::{MOST_HOPS, MOST_NETWORKS};
pub use relation::Relation;
