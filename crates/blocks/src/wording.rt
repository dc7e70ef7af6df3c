// A refusal in words.
ghost use Rattle.std.specs.Prelude.{Some};
ghost use Rattle.blocks.specs.Number.{number};
ghost use Rattle.blocks.specs.Words.{cause_words, place_words, words};

use crate::refusal::{Cause, Place, Refusal};
use std::error::Error;
use std::fmt;
use text::Numbered;

impl Numbered for Cause {
    ghost number_of = { number };

    fn number(&self) -> u8 {
        match self {
            Cause::UnknownKind | Cause::Cut | Cause::Surplus => 1,
            Cause::NoSuchNetwork => 2,
            Cause::NotRising | Cause::Turned | Cause::TooMany => 3,
            Cause::Overlap => 4,
            Cause::TooManyRehearsed => 11,
        }
    }
}

impl fmt::Display for Cause {
    ghost output = { λ cause. Some (cause_words cause) };

    fn fmt<W: fmt::Write>(&self, f: &mut fmt::Formatter<W>) -> fmt::Result {
        f.write_str(match self {
            Cause::UnknownKind => "unknown kind",
            Cause::Cut => "bad length: cut short",
            Cause::Surplus => "bad length: bytes past the end",
            Cause::NoSuchNetwork => "a network not below n",
            Cause::NotRising => "blocks not in rising order",
            Cause::Turned => "first above last",
            Cause::TooMany => "more than 256 blocks",
            Cause::Overlap => "blocks that overlap",
            Cause::TooManyRehearsed => "more blocks than can be rehearsed",
        })
    }
}

impl fmt::Display for Place {
    ghost output = { λ place. Some (place_words place) };

    fn fmt<W: fmt::Write>(&self, f: &mut fmt::Formatter<W>) -> fmt::Result {
        match self {
            Place::Head => f.write_str("head"),
            Place::Block(k) => write!(f, "block {k}"),
            Place::End => f.write_str("end"),
        }
    }
}

impl fmt::Display for Refusal {
    ghost output = { λ refusal. Some (words refusal) };

    fn fmt<W: fmt::Write>(&self, f: &mut fmt::Formatter<W>) -> fmt::Result {
        match self {
            Refusal::Fault(fault) => write!(f, "{fault}"),
            Refusal::Memory => f.write_str("out of memory"),
        }
    }
}

impl Error for Refusal {}
