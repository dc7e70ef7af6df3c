//! Examples of what the libraries below the router do, each proved to end and then run.
#![tactic(auto)]

#[cfg(test)]
mod choosing;
#[cfg(test)]
mod files;
#[cfg(test)]
mod making;
#[cfg(test)]
mod rings;
#[cfg(test)]
mod tables;
#[cfg(test)]
mod telling;
