//! What the networks of a rehearsal go by, a line for each.
ghost use Rattle.std.specs.Prelude.{Some};
ghost use Rattle.report.specs.Routes.{show_words};

use routes::{BlockLine, RouteLine};
use simulation::Simulation;
use std::fmt;

/// What every network goes by for a block; no text of a block that there is not.
#[derive(Clone, Copy)]
pub struct Shown<'a> {
    /// The networks as they stand.
    pub simulation: &'a Simulation,
    /// The number of the block.
    pub block: u16,
}

impl fmt::Display for Shown<'_> {
    ghost output = { λ shown. Some (show_words shown.simulation.now shown.block) };

    fn fmt<W: fmt::Write>(&self, f: &mut fmt::Formatter<W>) -> fmt::Result {
        let number = self.block;
        let Some(block) = self.simulation.block(number) else {
            return Ok(());
        };
        write!(f, "{}", BlockLine::new(number, block))?;
        let networks = self.simulation.networks();
        for network in 0..networks {
            let route = self.simulation.route(network, number);
            write!(f, "{}", RouteLine { network, route })?;
        }
        Ok(())
    }
}
