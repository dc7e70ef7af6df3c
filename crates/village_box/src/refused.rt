//! What the box refuses.
ghost use Rattle.std.specs.Prelude.{Some};
ghost use Rattle.village_box.specs.Refusals.{refused_words, thing_words, word_words};

use std::fmt;
use text::Fault;

/// A word of the command, counted from 1.
#[derive(Clone, Copy, Debug)]
pub(crate) struct Word(pub u8);

impl fmt::Display for Word {
    ghost output = { λ word. Some (word_words word.0) };

    fn fmt<W: fmt::Write>(&self, f: &mut fmt::Formatter<W>) -> fmt::Result {
        write!(f, "word {}", self.0)
    }
}

/// A thing of the input, counted from 0.
#[derive(Clone, Copy, Debug)]
pub(crate) struct Thing(pub u64);

impl fmt::Display for Thing {
    ghost output = { λ thing. Some (thing_words thing.0) };

    fn fmt<W: fmt::Write>(&self, f: &mut fmt::Formatter<W>) -> fmt::Result {
        write!(f, "thing {}", self.0)
    }
}

/// What is refused, shown as the line that tells it.
#[derive(Debug, Drop)]
pub(crate) enum Refused {
    /// A ties file.
    Ties(ties::Refusal),
    /// A block file.
    Blocks(blocks::Refusal),
    /// The number of the network.
    Number(Fault<Word, script::Cause>),
    /// A thing of the input.
    Input(Fault<Thing, speaker::Fault>),
}

impl fmt::Display for Refused {
    ghost output = { λ refused. Some (refused_words refused) };

    fn fmt<W: fmt::Write>(&self, f: &mut fmt::Formatter<W>) -> fmt::Result {
        match self {
            Refused::Ties(refusal) => write!(f, "ties: {refusal}"),
            Refused::Blocks(refusal) => write!(f, "blocks: {refusal}"),
            Refused::Number(fault) => write!(f, "number: {fault}"),
            Refused::Input(fault) => write!(f, "input: {fault}"),
        }
    }
}

/// Why the box ends with status 1.
pub(crate) type Failure = console::Failure<Refused>;

/// Why there is no router: want of memory, since blocks that were read are never too many for its tables.
pub(crate) fn not_made(_error: links::CreationError) -> Failure {
    Failure::Memory
}
