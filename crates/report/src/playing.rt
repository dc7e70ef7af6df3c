//! Commands are played.
ghost use Rattle.std.specs.Prelude.{◌≡◌, ◌<◌, ◌++◌, IsOk, vec_capacity, vec_len};
ghost use Rattle.simulation.specs.Simulated.{world_of};
ghost use Rattle.report.specs.Playing.{Plays, SameBlocks, one_or_none};

use forwarding::Ending;
use script::Command;
use simulation::{Refusal, Simulation};
use std::alloc::AllocError;

// The end that a step brought is put behind the others, where there is room for it.
fn put(endings: &mut Vec<Ending>, ending: Option<Ending>) -> Result<(), AllocError>
    requires { vec_len endings.old < vec_capacity endings.old }
    ensures room { IsOk result }
    ensures told { endings.new.items ≡ endings.old.items ++ one_or_none ending }
{
    if let Some(ending) = ending {
        endings.push(ending)?;
    }
    Ok(())
}

/// Does what a command asks, and puts the ends of packets that ended behind the others. Showing changes nothing, and
/// `Shown` has its text.
pub fn play(
    simulation: &mut Simulation,
    command: Command,
    endings: &mut Vec<Ending>,
) -> Result<(), Refusal>
    ensures world { world_of simulation.new ≡ world_of simulation.old }
    ensures blocks { SameBlocks simulation.old simulation.new }
    ensures played { Plays command simulation.old simulation.new endings.old endings.new result }
{
    match command {
        Command::Turn { first, second, up } => simulation.turn(first, second, up),
        Command::Hear { from, to } => {
            // where memory ended after the step, the end would be lost
            endings.reserve(1)?;
            Ok(put(endings, simulation.hear(from, to)?)?)
        }
        Command::Send { network, address } => {
            endings.reserve(1)?;
            Ok(put(endings, simulation.send(network, address)?)?)
        }
        Command::Show { .. } => Ok(()),
        Command::Rest => Ok(simulation.rest(endings)?),
    }
}
