// An update that a box gets.
ghost use Rattle.std.specs.Prelude.{◌≡◌, ◌+◌, ◌≤◌, vec_len, vec_capacity, OnErr};
ghost use Rattle.links.specs.Held.{blocks_of, held, number_of, world_for};
ghost use Rattle.advertisement.specs.Updates.{news};
ghost use Rattle.speaker.specs.Answers.{Obeys};
ghost use Rattle.speaker.specs.Bytes.{most_of_block};
ghost use Rattle.speaker.specs.Rule.{on_update};

use crate::fault::Fault;
use crate::telling::tell;
use advertisement::Update;
use links::{Router, Tables};
use selection::World;

// Hears an update and tells what it changes, or refuses it: then nothing is written.
pub(crate) fn hear(
    router: Router,
    world: World<'_>,
    tables: &mut Tables,
    from: u8,
    update: Update,
    out: &mut Vec<u8>,
) -> (Router, Result<(), Fault>)
    requires { vec_len out.old + most_of_block ≤ vec_capacity out.old }
    ensures router { result.0 ≡ router }
    ensures blocks { blocks_of tables.new ≡ blocks_of tables.old }
    ensures answer { Obeys
        (on_update (world_for world.entry tables.old) (number_of router) (held router tables.old) from
        (news update))
        (held result.0 tables.new) out.old.items out.new.items result.1 }
    ensures kept { OnErr result.1 ((tables.new ≡ tables.old) × (out.new ≡ out.old)) }
{
    let (router, heard) = router.hear(world, tables, from, update);
    match heard {
        Ok(audience) => {
            tell(
                tables,
                world.relations.networks(),
                update.block(),
                audience,
                out,
            );
            (router, Ok(()))
        }
        Err(fault) => (router, Err(Fault::Router(fault))),
    }
}
