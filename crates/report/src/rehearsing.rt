//! A script is played: a line is read, and then done.
ghost use Rattle.std.specs.Prelude.{length};
ghost use Rattle.script.specs.Next.{left_of};
ghost use Rattle.report.specs.Reading.{Shortens};

use crate::ended::Ended;
use crate::playing::play;
use crate::refused::{Failure, Refused};
use crate::setting::set_up;
use crate::shown::Shown;
use crate::steps::StepFault;
use console::{print, read};
use script::{Command, Limits, Line, Script};
use simulation::Simulation;
use text::Fault;

// The next command, or what is told of a faulty line.
fn next(script: &mut Script<'_>, limits: Limits) -> Result<Option<Command>, Failure>
    ensures { Shortens result (length (left_of script.old)) (length (left_of script.new)) }
{
    let next = script.next(limits);
    let place = Line(script.line());
    next.map_err(|cause| Failure::Refused(Refused::Line(Fault { place, cause })))
}

// Plays a command, and writes what is shown to standard output: how packets ended, also where it is not played to its end.
fn perform(
    rt: &HostRuntime,
    simulation: &mut Simulation,
    command: Command,
    line: usize,
) -> Result<(), Failure> {
    let mut endings = Vec::new(rt.alloc());
    let played = play(simulation, command, &mut endings);
    for ending in endings {
        print(rt, Ended(ending))?;
    }
    played.map_err(|refusal| Failure::Refused(Refused::Step(StepFault { refusal, line })))?;
    if let Command::Show { block } = command {
        print(rt, Shown { simulation, block })?;
    }
    Ok(())
}

// Plays a script to its end or its first fault. What stands before the fault has been done and shown.
fn play_all(rt: &HostRuntime, simulation: &mut Simulation, bytes: &[u8]) -> Result<(), Failure> {
    let limits = Limits {
        networks: simulation.networks(),
        blocks: simulation.blocks(),
    };
    let mut script = Script::new(bytes);
    while let Some(command) = next(&mut script, limits)? {
        perform(rt, simulation, command, script.line())?;
    }
    Ok(())
}

/// Sets up networks by the files that are named, and plays a script: the ties are read first, then the blocks, then the
/// script. What it shows goes to standard output, also before a fault.
pub fn rehearse(rt: &HostRuntime, ties: &str, blocks: &str, script: &str) -> Result<(), Failure> {
    let mut simulation = set_up(rt, ties, blocks)?;
    let script = read(rt, script)?;
    play_all(rt, &mut simulation, script.as_slice())
}
