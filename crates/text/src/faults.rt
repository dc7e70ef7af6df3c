// A fault in words: its number, its place and its cause.
ghost use Rattle.std.specs.Prelude.{◌≡◌, ℕ};
ghost use Rattle.text.specs.Faults.{fault_output};

use std::fmt;

/// What is told with a number.
pub trait Numbered {
    ghost number_of: { Self → ℕ };

    /// The number of the fault.
    fn number(&self) -> u8
        ensures { result ≡ number_of self.now };
}

/// What is wrong at a place, shown as `fault 6 at line 3: nothing is in flight`.
#[derive(Clone, Copy, Debug)]
pub struct Fault<P, C> {
    pub place: P,
    pub cause: C,
}

impl<P: fmt::Display, C: Numbered + fmt::Display> fmt::Display for Fault<P, C> {
    ghost output = { λ fault.
        fault_output (C.number_of fault.cause) (P.output fault.place) (C.output fault.cause) };

    fn fmt<W: fmt::Write>(&self, f: &mut fmt::Formatter<W>) -> fmt::Result {
        let number = self.cause.number();
        write!(f, "fault {number} at {}: {}", self.place, self.cause)
    }
}
