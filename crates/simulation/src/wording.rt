//! Why a step is not played, in words.
ghost use Rattle.std.specs.Prelude.{◌≡◌, Some};
ghost use Rattle.simulation.specs.Shown.{cause_words, number, refusal_words};

use crate::cause::{Cause, Refusal};
use std::error::Error;
use std::fmt;
use text::Numbered;

impl Numbered for Cause {
    ghost number_of = { number };

    fn number(&self) -> u8 {
        match self {
            Cause::NoSuchNetwork => 2,
            Cause::NothingInFlight => 6,
            Cause::NoLink => 10,
            Cause::TooMany => 11,
        }
    }
}

impl Cause {
    /// The cause in words, as `Display` prints it.
    pub fn text(self) -> &'static str
        ensures { result.now ≡ cause_words self }
    {
        match self {
            Cause::NoSuchNetwork => "a network not below n",
            Cause::NothingInFlight => "nothing is in flight",
            Cause::NoLink => "no line between these networks",
            Cause::TooMany => "more updates in flight than there is room for",
        }
    }
}

impl fmt::Display for Cause {
    ghost output = { λ cause. Some (cause_words cause) };

    fn fmt<W: fmt::Write>(&self, f: &mut fmt::Formatter<W>) -> fmt::Result {
        f.write_str(self.text())
    }
}

impl Error for Cause {}

impl Refusal {
    /// The refusal in words, as `Display` prints it.
    pub fn text(self) -> &'static str
        ensures { result.now ≡ refusal_words self }
    {
        match self {
            Refusal::Fault(cause) => cause.text(),
            Refusal::Memory => "out of memory",
        }
    }
}

impl fmt::Display for Refusal {
    ghost output = { λ refusal. Some (refusal_words refusal) };

    fn fmt<W: fmt::Write>(&self, f: &mut fmt::Formatter<W>) -> fmt::Result {
        f.write_str(self.text())
    }
}

impl Error for Refusal {}
