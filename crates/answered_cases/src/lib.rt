//! The examples of the rules, as code answers them: what is found by looking, and what is read from a file.
#![tactic(auto)]

mod laws;

pub use laws::every_answer_holds;
