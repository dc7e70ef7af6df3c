//! What a rehearsal refuses.
ghost use Rattle.std.specs.Prelude.{Some};
ghost use Rattle.report.specs.Refusals.{refused_words};

use crate::steps::StepFault;
use script::Line;
use simulation::{CreationError, MOST_BLOCKS, MOST_NETWORKS};
use std::fmt;
use text::Fault;

/// What a rehearsal refuses, shown as the line that tells it.
#[derive(Debug, Drop)]
pub enum Refused {
    /// A ties file.
    Ties(ties::Refusal),
    /// A block file.
    Blocks(blocks::Refusal),
    /// More networks or blocks than can be rehearsed.
    TooLarge,
    /// A line of the script that is not read.
    Line(Fault<Line, script::Cause>),
    /// A line of the script that is not played.
    Step(StepFault),
}

impl fmt::Display for Refused {
    ghost output = { λ refused. Some (refused_words refused) };

    fn fmt<W: fmt::Write>(&self, f: &mut fmt::Formatter<W>) -> fmt::Result {
        match self {
            Refused::Ties(refusal) => write!(f, "ties: {refusal}"),
            Refused::Blocks(refusal) => write!(f, "blocks: {refusal}"),
            Refused::TooLarge => {
                write!(
                    f,
                    "more than {MOST_NETWORKS} networks or {MOST_BLOCKS} blocks"
                )
            }
            Refused::Line(fault) => write!(f, "script: {fault}"),
            Refused::Step(fault) => write!(f, "script: {fault}"),
        }
    }
}

/// Why a program that rehearses ends with status 1.
pub type Failure = console::Failure<Refused>;

// Why networks are not made.
pub(crate) fn not_made(error: CreationError) -> Failure {
    match error {
        CreationError::TooLarge => Failure::Refused(Refused::TooLarge),
        CreationError::Memory => Failure::Memory,
    }
}
