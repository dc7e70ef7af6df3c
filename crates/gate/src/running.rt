//! One run of the gate.
use console::{Failure, Stream, print, println};
use report::rehearse;
use settling::{Refused, Told, check, settle};
use std::error::Error;
use std::fmt;
use std::fmt::Display;

/// What is wrong with the list of runs.
#[derive(Clone, Copy, Debug)]
pub(crate) enum Fault {
    /// It is no text.
    NotText,
    /// A line that names no run.
    NoRun,
}

impl fmt::Display for Fault {
    fn fmt<W: fmt::Write>(&self, f: &mut fmt::Formatter<W>) -> fmt::Result {
        f.write_str(match self {
            Fault::NotText => "runs: not a text",
            Fault::NoRun => "runs: a line that names no run",
        })
    }
}

impl Error for Fault {}

// Says why a run was refused, if it was.
fn tell<F: Display + Drop>(rt: &HostRuntime, done: Result<(), F>) -> Result<(), Failure<Fault>> {
    match done {
        Ok(()) => Ok(()),
        Err(failure) => println(rt, failure),
    }
}

// Names the three files of a run.
fn name(rt: &HostRuntime, ties: &str, blocks: &str, last: &str) -> Result<(), Failure<Fault>> {
    println!(rt; "{ties} {blocks} {last}").map_err(|error| Failure::Stream {
        stream: Stream::Output,
        error,
    })
}

// Says whether ties are sound, or why they are refused, behind the name of their file.
fn check_named(rt: &HostRuntime, ties: &str) -> Result<(), Failure<Fault>> {
    print(rt, ties)?;
    print(rt, ": ")?;
    match check(rt, ties) {
        Err(settling::Failure::Refused(Refused::Ties(refusal))) => println(rt, refusal),
        done => tell(rt, done.map_err(Told)),
    }
}

// Makes the run that words name, behind a line with the names of its files.
fn run_words(rt: &HostRuntime, words: &[&str]) -> Result<(), Failure<Fault>> {
    match *words {
        [] => Ok(()),
        ["check", ties] => check_named(rt, ties),
        ["settle", ties] => {
            println(rt, ties)?;
            tell(rt, check(rt, ties).map_err(Told))
        }
        ["settle", ties, blocks, lines] => {
            name(rt, ties, blocks, lines)?;
            tell(rt, settle(rt, ties, blocks, lines).map_err(Told))
        }
        ["rehearse", ties, blocks, script] => {
            name(rt, ties, blocks, script)?;
            tell(rt, rehearse(rt, ties, blocks, script))
        }
        _ => Err(Failure::Refused(Fault::NoRun)),
    }
}

/// Makes the run of a line of the list, and says why it is refused, if it is.
pub(crate) fn run(rt: &HostRuntime, line: &str) -> Result<(), Failure<Fault>> {
    let named = line.split('#').next().unwrap_or(line);
    let words: Vec<&str> = named.split_whitespace().collect(rt.alloc())?;
    run_words(rt, &words)
}
