//! gate RUNS: makes the runs of `settle` and `rehearse` that a file names, a run to a line, and says of each what it shows
//! and why it is refused.
//!
//!     check TIES                    whether ties are sound
//!     settle TIES                   the same, as `settle` says it
//!     settle TIES BLOCKS LINES      the stable routing for each block
//!     rehearse TIES BLOCKS SCRIPT   what a script shows
//!
//! What follows # is a comment. A run that is refused is followed by the next.
#![tactic(auto)]

mod running;

use console::{Failure, read, status, words};
use running::{Fault, run};
use std::process::ExitCode;

const USAGE: &str = "usage: gate RUNS";

fn run_all(rt: &HostRuntime) -> Result<(), Failure<Fault>> {
    let words = words(rt)?;
    let [runs] = words.as_slice() else {
        return Err(Failure::Usage(USAGE));
    };
    let runs = read(rt, runs.as_str())?;
    let Ok(text) = str::from_utf8(runs.as_slice()) else {
        return Err(Failure::Refused(Fault::NotText));
    };
    text.lines().try_for_each(|line| run(rt, line))
}

fn main(rt: HostRuntime) -> ExitCode {
    status(&rt, "gate", run_all(&rt))
}
