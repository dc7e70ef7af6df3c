//! How a program ends.
ghost use Rattle.std.specs.Prelude.{◌≡◌, OnErr, OnOk};
ghost use Rattle.std.specs.Process.{exit_status};

use std::fmt::Display;
use std::process::ExitCode;

/// The status that a program ends with; where it failed, a line on standard error tells why, behind the program's name.
/// `main` answers it, and no error: the runtime would put a word of its own before the line.
pub fn status<F: Display + Drop>(rt: &HostRuntime, program: &str, done: Result<(), F>) -> ExitCode
    ensures well { OnOk done (exit_status result ≡ 0) }
    ensures failed { OnErr done (exit_status result ≡ 1) }
{
    match done {
        Ok(()) => ExitCode::SUCCESS,
        Err(failure) => {
            let _ = eprintln!(rt; "{program}: {failure}");
            ExitCode::FAILURE
        }
    }
}
