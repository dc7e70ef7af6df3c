// A faulty line in words.
ghost use Rattle.std.specs.Prelude.{◌≡◌, Some};
ghost use Rattle.script.specs.Number.{number};
ghost use Rattle.script.specs.Words.{cause_words, line_words};

use crate::cause::Cause;
use std::error::Error;
use std::fmt;
use text::Numbered;

impl Numbered for Cause {
    ghost number_of = { number };

    fn number(&self) -> u8 {
        match self {
            Cause::BadByte
            | Cause::UnknownWord
            | Cause::MissingWord
            | Cause::SurplusWord
            | Cause::NotANumber
            | Cause::NotAnAddress => 1,
            Cause::NoSuchNetwork | Cause::NoSuchBlock => 2,
        }
    }
}

impl Cause {
    /// The cause in words, as `Display` prints it.
    pub fn text(self) -> &'static str
        ensures { result.now ≡ cause_words self }
    {
        match self {
            Cause::BadByte => "a byte that is not printable",
            Cause::UnknownWord => "an unknown word",
            Cause::MissingWord => "a missing word",
            Cause::SurplusWord => "a surplus word",
            Cause::NotANumber => "not a number",
            Cause::NotAnAddress => "not an address",
            Cause::NoSuchNetwork => "a network not below n",
            Cause::NoSuchBlock => "no such block",
        }
    }
}

impl fmt::Display for Cause {
    ghost output = { λ cause. Some (cause_words cause) };

    fn fmt<W: fmt::Write>(&self, f: &mut fmt::Formatter<W>) -> fmt::Result {
        f.write_str(self.text())
    }
}

impl Error for Cause {}

/// A line of a script, counted from 1.
#[derive(Clone, Copy, Debug)]
pub struct Line(pub usize);

impl fmt::Display for Line {
    ghost output = { λ line. Some (line_words line.0) };

    fn fmt<W: fmt::Write>(&self, f: &mut fmt::Formatter<W>) -> fmt::Result {
        write!(f, "line {}", self.0)
    }
}
