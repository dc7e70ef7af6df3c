//! What is told of one block that is settled.
ghost use Rattle.std.specs.Prelude.{◌≡◌, IfOk, Some};
ghost use Rattle.selection.specs.Meaning.{meaning};
ghost use Rattle.stable.specs.Settling.{goes_by, has_way};
ghost use Rattle.routes.specs.Accounts.{account_words};
ghost use Rattle.routes.specs.Laws.{AccountsFor};

use crate::lines::BlockLine;
use crate::network_line::NetworkLine;
use selection::World;
use stable::{LinkSet, Routing, settle};
use std::alloc::{AllocError, Global};
use std::fmt;

/// The stable routing for a block, shown as a line for the block and one for each network.
#[derive(Drop)]
pub struct Account<'a> {
    block_line: BlockLine,
    networks: u8,
    routing: Routing<'a>,
}

impl<'a> Account<'a> {
    /// The account of a block, from relations, links, the homes of its addresses and its line alone.
    ///
    /// # Errors
    /// Want of memory.
    pub fn new(
        world: World<'a>,
        links: &'a LinkSet,
        line: BlockLine,
        heap: Global,
    ) -> Result<Account<'a>, AllocError>
        ensures { IfOk result (AccountsFor world.entry links.now line) }
    {
        Ok(Account {
            block_line: line,
            networks: world.relations.networks(),
            routing: settle(world, links, line.block, heap)?,
        })
    }
}

impl Account<'_> {
    // What is told of a network.
    fn line(&self, network: u8) -> NetworkLine<'_>
        ensures network { result.network ≡ network }
        ensures route { meaning result.route ≡ goes_by self.now.routing network }
        ensures reaches { result.reaches ≡ has_way self.now.routing network }
    {
        NetworkLine {
            network,
            route: self.routing.route(network),
            reaches: self.routing.reaches(network),
        }
    }
}

impl fmt::Display for Account<'_> {
    ghost output = { λ account. Some (account_words account) };

    fn fmt<W: fmt::Write>(&self, f: &mut fmt::Formatter<W>) -> fmt::Result {
        write!(f, "{}", self.block_line)?;
        for network in 0..self.networks {
            write!(f, "{}", self.line(network))?;
        }
        Ok(())
    }
}
