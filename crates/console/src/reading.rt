//! What a program is given: words, files and standard input.
ghost use Rattle.std.specs.Prelude.{◌≡◌};
ghost use Rattle.console.specs.Inputs.{inputs_among};

use crate::failure::{Failure, Stream};
use std::io::Read;
use std::{env, fs};

/// The words behind the program's name.
pub fn words<R>(rt: &HostRuntime) -> Result<Vec<String>, Failure<R>> {
    let args = env::args(rt).map_err(|error| Failure::Stream {
        stream: Stream::Words,
        error,
    })?;
    Ok(args.skip(1).collect(rt.alloc())?)
}

/// How many of some words stand for standard input.
pub fn inputs(words: &[String]) -> usize
    ensures { result ≡ inputs_among words.now }
{
    words.iter().filter(|word| word.as_str() == "-").count()
}

/// The bytes of a file.
pub fn read_file<R>(rt: &HostRuntime, path: &str) -> Result<Vec<u8>, Failure<R>> {
    fs::read(rt, path).try_map_err(|error| {
        let path = String::from_str(rt.alloc(), path)?;
        Ok(Failure::File { path, error })
    })
}

/// The bytes of a file, or of standard input where the path is `-`.
pub fn read<R>(rt: &HostRuntime, path: &str) -> Result<Vec<u8>, Failure<R>> {
    if path != "-" {
        return read_file(rt, path);
    }
    let mut bytes = Vec::new(rt.alloc());
    let read = rt.stdin().read_to_end(&mut bytes);
    read.map_err(|error| Failure::Stream {
        stream: Stream::Input,
        error,
    })?;
    Ok(bytes)
}
