//! Examples of what a box answers, each proved to end and then run.
#![tactic(auto)]

#[cfg(test)]
mod answers;
