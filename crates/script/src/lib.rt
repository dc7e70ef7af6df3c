//! Scripts: text with one command to a line, read exactly.
#![tactic(auto)]

mod addresses;
mod cause;
mod command;
mod cut;
mod laws;
mod naming;
mod numbers;
mod parts;
mod reading;
mod script;
mod turns;
mod wording;

pub use addresses::read_address;
pub use cause::Cause;
pub use command::{Command, Limits, Turn};
pub use laws::{
    addresses_read_back, comments_say_nothing, next_by_next_is_the_whole,
    next_turn_by_next_turn_is_the_whole, other_commands_are_unknown, other_lines_are_unknown,
    scripts_read_line_by_line, turns_alone_say_the_same, turns_read_as_in_scripts,
    turns_read_line_by_line, written_reads_back, written_script_reads_back,
};
pub use naming::read_network;
pub use script::Script;
pub use wording::Line;
