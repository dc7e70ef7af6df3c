//! The examples of the rules, each as a row of one table.
#![tactic(auto)]

mod laws;

pub use laws::every_case_holds;
