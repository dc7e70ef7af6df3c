//! That the telling ends at the one stable routing: the theorems on every run.
#![tactic(auto)]

mod laws;

pub use laws::{
    any_order_settles, heights_of_sound_ties, lower_levels_decide, none_is_refused, packets_arrive,
    past_is_forgotten, paths_are_always_proper, promise, quiescence_is_stable,
    stable_routing_exists, stable_routing_is_unique, telling_ends, what_is_left_falls,
};
