//! Examples of what a router does, each proved to end and then run.
#![tactic(auto)]

#[cfg(test)]
mod packets;
#[cfg(test)]
mod routing;
