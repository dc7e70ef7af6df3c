//! What ends a program with status 1, and the line that tells it.
ghost use Rattle.std.specs.Prelude.{◌≡◌, Some};
ghost use Rattle.console.specs.declared.failure.Failure.{Failure};
ghost use Rattle.console.specs.declared.failure.Failure.TheVariants.{Memory};
ghost use Rattle.console.specs.Failures.{failure_output, stream_words};

use std::alloc::AllocError;
use std::error::Error;
use std::{fmt, io};

/// What a program is given, or writes to, that no path names.
#[derive(Clone, Copy, Debug, PartialEq, Eq)]
pub enum Stream {
    /// The words of the command.
    Words,
    /// Standard input.
    Input,
    /// Standard output.
    Output,
}

impl fmt::Display for Stream {
    ghost output = { λ stream. Some (stream_words stream) };

    fn fmt<W: fmt::Write>(&self, f: &mut fmt::Formatter<W>) -> fmt::Result {
        f.write_str(match self {
            Stream::Words => "the words of the command",
            Stream::Input => "standard input",
            Stream::Output => "standard output",
        })
    }
}

/// Why a program ends with status 1, shown as the line that tells it. `R` is what the program itself refuses.
#[derive(Debug, Drop)]
pub enum Failure<R> {
    /// The words of the command ask for nothing: how the program is to be called.
    Usage(&'static str),
    /// A stream that was not read or written, and why.
    Stream { stream: Stream, error: io::Error },
    /// A file that was not read, and why.
    File { path: String, error: io::Error },
    /// What the program refuses.
    Refused(R),
    /// Memory could not be had.
    Memory,
}

impl<R: fmt::Display> fmt::Display for Failure<R> {
    ghost output = { failure_output R.output };

    fn fmt<W: fmt::Write>(&self, f: &mut fmt::Formatter<W>) -> fmt::Result {
        match self {
            Failure::Usage(usage) => write!(f, "{usage}"),
            Failure::Stream { stream, error } => write!(f, "{stream}: {error}"),
            Failure::File { path, error } => write!(f, "{path}: {error}"),
            Failure::Refused(refused) => write!(f, "{refused}"),
            Failure::Memory => f.write_str("out of memory"),
        }
    }
}

impl<R: fmt::Display + fmt::Debug + Drop> Error for Failure<R> {}

impl<R> From<AllocError> for Failure<R> {
    ghost from_gives = { λ _ failure. failure ≡ Memory };

    fn from(_e: AllocError) -> Failure<R> {
        Failure::Memory
    }
}
