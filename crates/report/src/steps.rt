//! A line that is not played.
ghost use Rattle.std.specs.Prelude.{Some};
ghost use Rattle.report.specs.Steps.{step_words};

use script::Line;
use simulation::Refusal;
use std::fmt;
use text::Fault;

/// What is told of a line that is not played.
#[derive(Clone, Copy, Debug)]
pub struct StepFault {
    /// Why it is not played.
    pub refusal: Refusal,
    /// The line of the script, counted from 1.
    pub line: usize,
}

impl fmt::Display for StepFault {
    ghost output = { λ fault. Some (step_words fault.refusal fault.line) };

    fn fmt<W: fmt::Write>(&self, f: &mut fmt::Formatter<W>) -> fmt::Result {
        let place = Line(self.line);
        match self.refusal {
            Refusal::Fault(cause) => write!(f, "{}", Fault { place, cause }),
            Refusal::Memory => write!(f, "out of memory at {place}"),
        }
    }
}
