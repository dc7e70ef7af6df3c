//! Why tables, or what holds such tables, are not made.
ghost use Rattle.std.specs.Prelude.{◌≡◌, Some};
ghost use Rattle.links.specs.Made.{creation_error_words};
ghost use Rattle.links.specs.declared.creation_error.CreationError.TheVariants.{Memory};

use std::alloc::{AllocError, AllocFailed};
use std::error::Error;
use std::fmt;

/// Why tables, or what holds such tables, are not made.
#[derive(Clone, Copy, Debug, PartialEq, Eq)]
pub enum CreationError {
    /// more networks or blocks than there may be
    TooLarge,
    /// memory could not be had; it may be made later
    Memory,
}

impl From<AllocError> for CreationError {
    ghost from_gives = { λ _ u. u ≡ Memory };

    fn from(_e: AllocError) -> CreationError {
        CreationError::Memory
    }
}

// For what could not be pushed.
impl<T: Drop> From<AllocFailed<T>> for CreationError {
    ghost from_gives = { λ _ u. u ≡ Memory };

    fn from(e: AllocFailed<T>) -> CreationError {
        AllocError::from(e).into()
    }
}

impl fmt::Display for CreationError {
    ghost output = { λ error. Some (creation_error_words error) };

    fn fmt<W: fmt::Write>(&self, f: &mut fmt::Formatter<W>) -> fmt::Result {
        f.write_str(match self {
            CreationError::TooLarge => "more networks or blocks than there may be",
            CreationError::Memory => "out of memory",
        })
    }
}

impl Error for CreationError {}
