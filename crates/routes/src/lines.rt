//! The line of a network, and that of a block.
ghost use Rattle.std.specs.Prelude.{◌≡◌, Some};
ghost use Rattle.selection.specs.Meaning.{meaning};
ghost use Rattle.routes.specs.Lines.{block_line, block_words, route_words};

use blocks::Block;
use selection::Route;
use std::fmt;
use text::{Address, Row};

/// The line of a network: what it goes by.
#[derive(Clone, Copy, Debug)]
pub struct RouteLine<'a> {
    /// The number of the network.
    pub network: u8,
    /// What it goes by.
    pub route: Route<'a>,
}

impl fmt::Display for RouteLine<'_> {
    ghost output = { λ line. Some (route_words line.network (meaning line.route)) };

    fn fmt<W: fmt::Write>(&self, f: &mut fmt::Formatter<W>) -> fmt::Result {
        let network = self.network;
        match self.route {
            Route::Nothing => writeln!(f, "{network} nothing"),
            Route::Local => writeln!(f, "{network} home"),
            Route::Via { neighbour, path } => {
                writeln!(f, "{network} by {neighbour} over {}", Row(path))
            }
        }
    }
}

/// The line before those of the networks: a block, the addresses that it has, from the first to the last, and its home.
#[derive(Clone, Copy, Debug)]
pub struct BlockLine {
    /// The number of the block.
    pub block: u16,
    /// Its first address.
    pub first: Address,
    /// Its last address.
    pub last: Address,
    /// The network that it is at home at.
    pub home: u8,
}

impl BlockLine {
    /// The line of a block that has a number.
    pub fn new(number: u16, block: Block) -> BlockLine
        ensures { result ≡ block_line number block }
    {
        BlockLine {
            block: number,
            first: block.first,
            last: block.last,
            home: block.home,
        }
    }
}

impl fmt::Display for BlockLine {
    ghost output = { λ line. Some (block_words line) };

    fn fmt<W: fmt::Write>(&self, f: &mut fmt::Formatter<W>) -> fmt::Result {
        let BlockLine {
            block,
            first,
            last,
            home,
        } = *self;
        writeln!(f, "block {block}, {first} to {last}, home {home}")
    }
}
