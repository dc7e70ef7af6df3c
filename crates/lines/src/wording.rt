// A refusal of a list of turns in words.
ghost use Rattle.std.specs.Prelude.{◌≡◌, Some};
ghost use Rattle.lines.specs.Number.{number};
ghost use Rattle.lines.specs.Words.{cause_words};

use crate::cause::Cause;
use std::error::Error;
use std::fmt;
use text::Numbered;

impl Numbered for Cause {
    ghost number_of = { number };

    fn number(&self) -> u8 {
        match self {
            Cause::Line(cause) => cause.number(),
            Cause::NoLink => 10,
        }
    }
}

impl Cause {
    /// The cause in words, as `Display` prints it.
    pub fn text(self) -> &'static str
        ensures { result.now ≡ cause_words self }
    {
        match self {
            Cause::Line(cause) => cause.text(),
            Cause::NoLink => "no line between these networks",
        }
    }
}

impl fmt::Display for Cause {
    ghost output = { λ cause. Some (cause_words cause) };

    fn fmt<W: fmt::Write>(&self, f: &mut fmt::Formatter<W>) -> fmt::Result {
        f.write_str(self.text())
    }
}

impl Error for Cause {}
