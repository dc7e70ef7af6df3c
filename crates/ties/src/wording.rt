// A refusal in words.
ghost use Rattle.std.specs.Prelude.{Some};
ghost use Rattle.ties.specs.Number.{number, ring_number};
ghost use Rattle.ties.specs.Words.{cause_words, place_words, ring_words, words};

use crate::refusal::{Cause, Place, Refusal};
use std::error::Error;
use std::fmt;
use text::{Fault, Numbered, Row};

impl Numbered for Cause {
    ghost number_of = { number };

    fn number(&self) -> u8 {
        match self {
            Cause::UnknownKind | Cause::Cut | Cause::Surplus => 1,
            Cause::NoSuchNetwork | Cause::BadCount => 2,
            Cause::NotRising | Cause::SamePair | Cause::PeersTurned | Cause::Itself => 3,
            Cause::TooMany => 11,
        }
    }
}

impl fmt::Display for Cause {
    ghost output = { λ cause. Some (cause_words cause) };

    fn fmt<W: fmt::Write>(&self, f: &mut fmt::Formatter<W>) -> fmt::Result {
        f.write_str(match self {
            Cause::UnknownKind => "unknown kind",
            Cause::Cut => "bad length: cut short",
            Cause::Surplus => "bad length: bytes past the end",
            Cause::NoSuchNetwork => "a network not below n",
            Cause::BadCount => "n of 0 or above 64",
            Cause::NotRising => "ties not in rising order",
            Cause::SamePair => "two ties of one pair",
            Cause::PeersTurned => "peers with the higher number first",
            Cause::Itself => "a network tied to itself",
            Cause::TooMany => "more networks than can be rehearsed",
        })
    }
}

impl fmt::Display for Place {
    ghost output = { λ place. Some (place_words place) };

    fn fmt<W: fmt::Write>(&self, f: &mut fmt::Formatter<W>) -> fmt::Result {
        match self {
            Place::Head => f.write_str("head"),
            Place::Tie(k) => write!(f, "tie {k}"),
            Place::End => f.write_str("end"),
        }
    }
}

// The cycle of customers that is told, as the cause of a fault at the end.
#[derive(Clone, Copy)]
struct Ring<'a>(&'a [u8]);

impl Numbered for Ring<'_> {
    ghost number_of = { λ _. ring_number };

    fn number(&self) -> u8 {
        5
    }
}

impl fmt::Display for Ring<'_> {
    ghost output = { λ ring. Some (ring_words ring.0.now) };

    fn fmt<W: fmt::Write>(&self, f: &mut fmt::Formatter<W>) -> fmt::Result {
        write!(f, "a ring of customers: {}", Row(self.0))
    }
}

impl fmt::Display for Refusal {
    ghost output = { λ refusal. Some (words refusal) };

    fn fmt<W: fmt::Write>(&self, f: &mut fmt::Formatter<W>) -> fmt::Result {
        match self {
            Refusal::Fault(fault) => write!(f, "{fault}"),
            Refusal::Cycle(ring) => {
                let (place, cause) = (Place::End, Ring(ring));
                write!(f, "{}", Fault { place, cause })
            }
            Refusal::Memory => f.write_str("out of memory"),
        }
    }
}

impl Error for Refusal {}
