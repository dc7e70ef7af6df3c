// A reader of a script: what is left to read, and the line that was read last.
ghost use Rattle.std.specs.Prelude.{◌+◌, ◌^◌, ◌<◌, length};

mod methods;
mod taking;

/// Reads a script, or a list of turns, line by line.
#[derive(Drop)]
pub struct Script<'a> {
    rest: &'a [u8],
    line: usize,
    ghost fits: { line + length rest.now < 2 ^ 64 },
}
