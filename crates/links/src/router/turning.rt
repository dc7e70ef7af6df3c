//! A link that turns.
ghost use Rattle.std.specs.Prelude.{◌≡◌, ℕ, ◌<◌, Bool, None, OnErr};
ghost use Rattle.model.specs.Hearing.{every};
ghost use Rattle.model.specs.Local.{at, retold};
ghost use Rattle.model.specs.declared.limits.TheConstants.{MOST_NETWORKS};
ghost use Rattle.selection.specs.Paths.{row};
ghost use Rattle.links.specs.Answers.{ToldAll};
ghost use Rattle.links.specs.Held.{audiences_of, blocks_of, held, links_up, number_of, world_for};
ghost use Rattle.links.specs.Rules.{AnswersTurn, held_after_turning};

use crate::router::Router;
use crate::tables::Tables;
use model::Fault;
use selection::World;

impl Router {
    // The router with one link up or down.
    fn with_link(mut self, other: u8, up: bool) -> Router
        requires { other < MOST_NETWORKS }
        ensures number { number_of result ≡ number_of self }
        ensures links { (k : ℕ) → links_up result k ≡ at other up (links_up self) k }
    {
        self.up.set(other, up);
        self
    }

    // Selects anew for every block and exports what is due, block by block.
    fn export_all(self, world: World<'_>, tables: &mut Tables)
        ensures blocks { blocks_of tables.new ≡ blocks_of tables.old }
        ensures held { held self tables.new
            ≡ retold (world_for world.entry tables.old) (number_of self) every
            (held self tables.old) }
        ensures whom { ToldAll (world_for world.entry tables.old) (number_of self)
            (held self tables.old) (audiences_of tables.new) (blocks_of tables.old) }
    {
        for block in 0..tables.blocks() {
            let audience = self.export(world, tables, block);
            tables.audiences[block as usize] = audience;
        }
    }

    /// A link of its own turns, or is turned to what it is already: what went over it is forgotten,
    /// and every block told anew; who is told of each stands in the tables. The router is handed
    /// back as it then is.
    ///
    /// # Errors
    /// Of the turn's faults the one with the lowest number; then nothing is changed.
    pub fn turn(
        self,
        world: World<'_>,
        tables: &mut Tables,
        other: u8,
        up: bool,
    ) -> (Router, Result<(), Fault>)
        ensures number { number_of result.0 ≡ number_of self }
        ensures blocks { blocks_of tables.new ≡ blocks_of tables.old }
        ensures held { held result.0 tables.new
            ≡ held_after_turning self world.entry tables.old other up }
        ensures answer { AnswersTurn self world.entry tables.old other up
            (audiences_of tables.new) result.1 }
        ensures kept { OnErr result.1 ((result.0 ≡ self) × (tables.new ≡ tables.old)) }
    {
        if other >= world.relations.networks() {
            return (self, Err(Fault::NoSuchNetwork));
        }
        if !world.relations.relation(self.number, other).is_related() {
            return (self, Err(Fault::NoLink));
        }
        let router = self.with_link(other, up);
        forget(tables, other);
        router.export_all(world, tables);
        (router, Ok(()))
    }
}

// Forgets what was received and advertised over the link to a neighbour.
fn forget(tables: &mut Tables, other: u8)
    ensures blocks { blocks_of tables.new ≡ blocks_of tables.old }
    ensures received { (b k : ℕ)
        → row tables.new.received b k ≡ at other None (row tables.old.received b) k }
    ensures advertised { (b k : ℕ)
        → row tables.new.advertised b k ≡ at other None (row tables.old.advertised b) k }
{
    tables.received.forget(other);
    tables.advertised.forget(other);
}
