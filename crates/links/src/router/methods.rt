//! Making a router, and exporting.
ghost use Rattle.std.specs.Prelude.{◌≡◌, ℕ, ◌<◌, false};
ghost use Rattle.model.specs.Hearing.{only};
ghost use Rattle.model.specs.Local.{retold};
ghost use Rattle.selection.specs.Meaning.{meaning};
ghost use Rattle.selection.specs.Nodes.{link_up};
ghost use Rattle.links.specs.Answers.{Audience};
ghost use Rattle.links.specs.Held.{blocks_of, held, links_up, number_of, then_held, world_for};
ghost use Rattle.links.specs.Rules.{chosen};

use crate::router::Router;
use crate::tables::Tables;
use advertisement::advertise;
use selection::{NetworkSet, Node, Route, World, select};

impl Router {
    /// The router of a network, with every link down.
    pub fn new(number: u8) -> Router
        ensures number { number_of result ≡ number }
        ensures down { (k : ℕ) → links_up result k ≡ false }
    {
        Router {
            number,
            up: NetworkSet::none(),
        }
    }

    // Its network among its neighbours.
    fn node<'a>(&'a self, world: World<'a>) -> Node<'a>
        ensures world { result.world ≡ world.entry }
        ensures up { (k : ℕ) → link_up result k ≡ links_up self.now k }
        ensures me { result.me ≡ number_of self.now }
    {
        Node {
            world,
            up: self.up.as_slice(),
            me: self.number,
        }
    }

    /// What it goes by for a block; nothing where there is no such block.
    pub fn route<'a>(self, world: World<'_>, tables: &'a Tables, block: u16) -> Route<'a>
        ensures { meaning result ≡ chosen self world.entry tables.now block }
    {
        if block >= tables.blocks() {
            return Route::Nothing;
        }
        select(self.node(world), &tables.received, block)
    }

    // Selects anew for a block and exports it: the answer names the neighbours to whom what now
    // stands in the table of what is advertised goes.
    pub(crate) fn export(self, world: World<'_>, tables: &mut Tables, block: u16) -> NetworkSet
        requires { block < blocks_of tables.old }
        ensures blocks { blocks_of tables.new ≡ blocks_of tables.old }
        ensures audiences { tables.new.audiences ≡ tables.old.audiences }
        ensures received { tables.new.received ≡ tables.old.received }
        ensures held { held self tables.new
            ≡ retold (world_for world.entry tables.old) (number_of self) (only block)
            (then_held self tables.new tables.old) }
        ensures whom { Audience (world_for world.entry tables.old) (number_of self) (only block)
            (then_held self tables.new tables.old) block result }
    {
        let node = self.node(world);
        let route = select(node, &tables.received, block);
        advertise(node, &mut tables.advertised, block, route)
    }
}
