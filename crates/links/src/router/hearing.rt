//! Hearing an update.
ghost use Rattle.std.specs.Prelude.{◌≡◌, ◌<◌, true, OnErr};
ghost use Rattle.model.specs.Hearing.{only};
ghost use Rattle.model.specs.Local.{retold};
ghost use Rattle.model.specs.Paths.{path_over};
ghost use Rattle.selection.specs.Changes.{ChangesRow};
ghost use Rattle.selection.specs.Paths.{count};
ghost use Rattle.advertisement.specs.Updates.{block_of, news, said};
ghost use Rattle.advertisement.specs.declared.update.Update.TheVariants.{Announce};
ghost use Rattle.links.specs.Answers.{Audience, Refuses};
ghost use Rattle.links.specs.Held.{audience_list, blocks_of, fits, held, number_of, then_held};
ghost use Rattle.links.specs.Held.{world_for};
ghost use Rattle.links.specs.Rules.{AnswersHearing, held_after_hearing, teller_fault, update_fault};
ghost use Rattle.links.specs.Rules.{way_fault};

use crate::paths::{begins, below, ends_at_home, is_valley_free, repeats};
use crate::router::Router;
use crate::tables::Tables;
use advertisement::{Announcement, Update};
use model::Fault;
use selection::{NetworkSet, PathTable, World};

impl Router {
    // Refuses the teller of an update of a block that is not there, not related, or whose link is
    // down.
    fn check_teller(
        self,
        world: World<'_>,
        tables: &Tables,
        from: u8,
        block: u16,
    ) -> Result<(), Fault>
        ensures { Refuses (teller_fault self world.entry tables.now from block) result }
    {
        if from >= world.relations.networks() {
            return Err(Fault::NoSuchNetwork);
        }
        if block >= tables.blocks() {
            return Err(Fault::NoSuchBlock);
        }
        if !world.relations.relation(self.number, from).is_related() {
            return Err(Fault::NotRelated);
        }
        if !self.up.contains(from) {
            return Err(Fault::LinkDown);
        }
        Ok(())
    }

    // Refuses the way of a path for a block that it hears from a neighbour, if something is wrong
    // with it.
    fn check_way(
        self,
        world: World<'_>,
        tables: &Tables,
        from: u8,
        block: u16,
        path: &[u8],
    ) -> Result<(), Fault>
        ensures { Refuses (way_fault self world.entry tables.now from block (path_over path.now))
            result }
    {
        if !begins(path, from) {
            return Err(Fault::WrongStart);
        }
        if !ends_at_home(path, world, block) {
            return Err(Fault::WrongEnd);
        }
        if repeats(path) {
            return Err(Fault::Repeats);
        }
        if !is_valley_free(world.relations, self.number, path) {
            return Err(Fault::NotValleyFree);
        }
        Ok(())
    }

    // Refuses an announcement, if something is wrong with its path, its teller, or the way of the
    // path.
    fn check_announcement(
        self,
        world: World<'_>,
        tables: &Tables,
        from: u8,
        announced: &Announcement,
    ) -> Result<(), Fault>
        ensures { Refuses
            (update_fault self world.entry tables.now from (news (Announce announced.now)))
            result }
    {
        let path = announced.path().ok_or(Fault::BadLength)?;
        if !below(path, world.relations.networks()) {
            return Err(Fault::NoSuchNetwork);
        }
        self.check_teller(world, tables, from, announced.block)?;
        self.check_way(world, tables, from, announced.block, path)
    }

    // Refuses an update from a neighbour, if something is wrong with it: of its faults the one with
    // the lowest number.
    fn check(
        self,
        world: World<'_>,
        tables: &Tables,
        from: u8,
        update: &Update,
    ) -> Result<(), Fault>
        ensures { Refuses (update_fault self world.entry tables.now from (news update.now))
            result }
    {
        match update {
            Update::Announce(announced) => self.check_announcement(world, tables, from, announced),
            Update::Withdraw { block } => self.check_teller(world, tables, from, *block),
        }
    }

    // Takes what an update says of its block: writes it over what was received from its teller,
    // selects anew and tells.
    fn take(self, world: World<'_>, tables: &mut Tables, from: u8, update: &Update) -> NetworkSet
        requires there { block_of update.now < blocks_of tables.old }
        requires fits { fits (count tables.old.received) from update.now ≡ true }
        ensures blocks { blocks_of tables.new ≡ blocks_of tables.old }
        ensures audiences { tables.new.audiences ≡ tables.old.audiences }
        ensures received { ChangesRow tables.old.received tables.new.received
            (block_of update.now) from (said update.now) }
        ensures held { held self tables.new
            ≡ retold (world_for world.entry tables.old) (number_of self)
            (only (block_of update.now)) (then_held self tables.new tables.old) }
        ensures whom { Audience (world_for world.entry tables.old) (number_of self)
            (only (block_of update.now)) (then_held self tables.new tables.old)
            (block_of update.now) result }
    {
        receive(&mut tables.received, from, update);
        self.export(world, tables, update.block())
    }

    /// Hears an update from a neighbour: refuses it, or takes it, selects anew for its block and
    /// tells; the answer names those to whom what now stands in the table of what is advertised
    /// goes. The router is handed back as it was.
    ///
    /// # Errors
    /// Of the update's faults the one with the lowest number; then nothing is changed.
    pub fn hear(
        self,
        world: World<'_>,
        tables: &mut Tables,
        from: u8,
        update: Update,
    ) -> (Router, Result<NetworkSet, Fault>)
        ensures router { result.0 ≡ self }
        ensures blocks { blocks_of tables.new ≡ blocks_of tables.old }
        ensures audiences { audience_list tables.new ≡ audience_list tables.old }
        ensures held { held self tables.new
            ≡ held_after_hearing self world.entry tables.old from (news update) }
        ensures answer { AnswersHearing self world.entry tables.old from (news update) result.1 }
        ensures kept { OnErr result.1 (tables.new ≡ tables.old) }
    {
        if let Err(fault) = self.check(world, tables, from, &update) {
            return (self, Err(fault));
        }
        let audience = self.take(world, tables, from, &update);
        (self, Ok(audience))
    }
}

// Writes the path of an announcement over what was received from its teller.
fn receive_path(received: &mut PathTable, from: u8, announced: &Announcement)
    requires { fits (count received.old) from (Announce announced.now) ≡ true }
    ensures same { count received.new ≡ count received.old }
    ensures rows { ChangesRow received.old received.new announced.now.block from
        (said (Announce announced.now)) }
{
    if let Some(path) = announced.path() {
        received.set(announced.block, from, path);
    }
}

// Writes what an update says over what was received from its teller.
fn receive(received: &mut PathTable, from: u8, update: &Update)
    requires { fits (count received.old) from update.now ≡ true }
    ensures same { count received.new ≡ count received.old }
    ensures rows { ChangesRow received.old received.new (block_of update.now) from
        (said update.now) }
{
    match update {
        Update::Announce(announced) => receive_path(received, from, announced),
        Update::Withdraw { block } => received.clear(*block, from),
    }
}
