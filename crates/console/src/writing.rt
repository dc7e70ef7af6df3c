//! What a program writes to standard output.
use crate::failure::{Failure, Stream};
use std::fmt::Display;
use std::io;

fn written<R>(done: io::Result<()>) -> Result<(), Failure<R>> {
    done.map_err(|error| Failure::Stream {
        stream: Stream::Output,
        error,
    })
}

/// Writes to standard output.
pub fn print<T: Display + Drop, R>(rt: &HostRuntime, text: T) -> Result<(), Failure<R>> {
    written(rt.print(text))
}

/// Writes a line to standard output.
pub fn println<T: Display + Drop, R>(rt: &HostRuntime, text: T) -> Result<(), Failure<R>> {
    written(rt.println(text))
}
