//! What `settle` refuses, and how it tells why it ends.
ghost use Rattle.std.specs.Prelude.{Some};
ghost use Rattle.settling.specs.Refusals.{refused_words, told_output};

use lines::Cause;
use script::Line;
use std::error::Error;
use std::fmt;
use text::Fault;

/// What is refused, shown as the line that tells it.
#[derive(Debug, Drop)]
pub enum Refused {
    /// A ties file.
    Ties(ties::Refusal),
    /// A block file.
    Blocks(blocks::Refusal),
    /// A list of turns.
    Lines(Fault<Line, Cause>),
}

impl fmt::Display for Refused {
    ghost output = { λ refused. Some (refused_words refused) };

    fn fmt<W: fmt::Write>(&self, f: &mut fmt::Formatter<W>) -> fmt::Result {
        match self {
            Refused::Ties(refusal) => write!(f, "ties: {refusal}"),
            Refused::Blocks(refusal) => write!(f, "blocks: {refusal}"),
            Refused::Lines(fault) => write!(f, "lines: {fault}"),
        }
    }
}

/// Why a program that settles ends with status 1.
pub type Failure = console::Failure<Refused>;

/// A failure as `settle` tells it: it does not say apart whether memory could not be had or a stream failed.
#[derive(Debug, Drop)]
pub struct Told(pub Failure);

impl fmt::Display for Told {
    ghost output = { λ told. told_output told.0 };

    fn fmt<W: fmt::Write>(&self, f: &mut fmt::Formatter<W>) -> fmt::Result {
        match &self.0 {
            Failure::Memory | Failure::Stream { .. } => {
                f.write_str("out of memory, or the output is closed")
            }
            failure => write!(f, "{failure}"),
        }
    }
}

impl Error for Told {}
