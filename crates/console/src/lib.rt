//! What the programs share: the words of a command, files and standard input, standard output, and how a program ends.
#![tactic(auto)]

mod ending;
mod failure;
mod reading;
mod writing;

pub use ending::status;
pub use failure::{Failure, Stream};
pub use reading::{inputs, read, read_file, words};
pub use writing::{print, println};
