// Why the bytes of a message are refused.
ghost use Rattle.std.specs.Prelude.{Some};
ghost use Rattle.messages.specs.Words.{cause_words, number};

use std::fmt;
use text::Numbered;

/// What is wrong with the message at the front of the bytes. Of several the first in this order is told.
#[derive(Clone, Copy, Debug, PartialEq, Eq)]
pub enum Cause {
    /// the kind is none of 1 to 4
    UnknownKind,
    /// the bytes end within the message
    Cut,
    /// a path of no network, or of more than 64
    BadLength,
    /// a link that is said to be neither up nor down
    NeitherUpNorDown,
}

impl Numbered for Cause {
    ghost number_of = { number };

    fn number(&self) -> u8 {
        1
    }
}

impl fmt::Display for Cause {
    ghost output = { λ cause. Some (cause_words cause) };

    fn fmt<W: fmt::Write>(&self, f: &mut fmt::Formatter<W>) -> fmt::Result {
        f.write_str(match self {
            Cause::UnknownKind => "unknown kind",
            Cause::Cut => "bad length: cut short",
            Cause::BadLength => "bad length: 0 or above 64 networks",
            Cause::NeitherUpNorDown => "a line neither up nor down",
        })
    }
}
