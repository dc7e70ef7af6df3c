// Why a box does not take what stands at the front of its bytes.
ghost use Rattle.std.specs.Prelude.{◌≡◌, Some, None, Ok, Err, if◌then◌else◌};

use crate::fault::Fault;

/// Why a box does not take what stands at the front of its bytes.
#[derive(Clone, Copy, Debug, PartialEq, Eq)]
pub enum Refusal {
    /// a message that is refused, or bytes that are none: of a message, how many bytes it has, by which its reader may go on
    Fault { fault: Fault, length: Option<usize> },
    /// memory could not be had; the message may be sound
    Memory,
}
