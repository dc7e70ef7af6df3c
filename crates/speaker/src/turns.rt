// A turn of a line that a box gets.
ghost use Rattle.std.specs.Prelude.{◌≡◌, ◌+◌, ◌*◌, ◌≤◌, vec_len, vec_capacity, MatchResult, OnErr};
ghost use Rattle.links.specs.Held.{blocks_of, held, number_of, world_for};
ghost use Rattle.relations.specs.Sound.{networks};
ghost use Rattle.speaker.specs.Answers.{Obeys, RefusesTurn};
ghost use Rattle.speaker.specs.Bytes.{most_of_block};
ghost use Rattle.speaker.specs.Rule.{on_turn};

use crate::fault::Fault;
use crate::telling::tell_all;
use links::{Router, Tables};
use selection::World;

// Refuses a turn of a line of others, or to a network that there is not.
#[tactic(auto, using(crate::proofs::Lines::no_network, crate::proofs::Lines::of_others))]
fn check_line(world: World<'_>, from: u8, other: u8) -> Result<(), Fault>
    ensures { MatchResult result
        (λ _. other ≡ from) (RefusesTurn (networks world.entry.relations.now) from other) }
{
    if from >= world.relations.networks() || other >= world.relations.networks() {
        return Err(Fault::Router(model::Fault::NoSuchNetwork));
    }
    if other != from {
        return Err(Fault::LineOfOthers);
    }
    Ok(())
}

// Turns a line of the router's own and tells every block anew, or refuses it: then nothing is written.
fn turn_own(
    router: Router,
    world: World<'_>,
    tables: &mut Tables,
    other: u8,
    up: bool,
    out: &mut Vec<u8>,
) -> (Router, Result<(), Fault>)
    requires { vec_len out.old + most_of_block * blocks_of tables.old ≤ vec_capacity out.old }
    ensures number { number_of result.0 ≡ number_of router }
    ensures blocks { blocks_of tables.new ≡ blocks_of tables.old }
    ensures answer { Obeys
        (on_turn (world_for world.entry tables.old) (number_of router) (held router tables.old) other other up)
        (held result.0 tables.new) out.old.items out.new.items result.1 }
    ensures kept { OnErr result.1
        ((result.0 ≡ router) × (tables.new ≡ tables.old) × (out.new ≡ out.old)) }
{
    let (router, turned) = router.turn(world, tables, other, up);
    match turned {
        Ok(()) => {
            tell_all(tables, world.relations.networks(), out);
            (router, Ok(()))
        }
        Err(fault) => (router, Err(Fault::Router(fault))),
    }
}

// Turns the line to the network that tells it, or refuses: then nothing is written.
pub(crate) fn turn(
    router: Router,
    world: World<'_>,
    tables: &mut Tables,
    from: u8,
    other: u8,
    up: bool,
    out: &mut Vec<u8>,
) -> (Router, Result<(), Fault>)
    requires { vec_len out.old + most_of_block * blocks_of tables.old ≤ vec_capacity out.old }
    ensures number { number_of result.0 ≡ number_of router }
    ensures blocks { blocks_of tables.new ≡ blocks_of tables.old }
    ensures answer { Obeys
        (on_turn (world_for world.entry tables.old) (number_of router) (held router tables.old) from other up)
        (held result.0 tables.new) out.old.items out.new.items result.1 }
    ensures kept { OnErr result.1
        ((result.0 ≡ router) × (tables.new ≡ tables.old) × (out.new ≡ out.old)) }
{
    if let Err(fault) = check_line(world, from, other) {
        return (router, Err(fault));
    }
    turn_own(router, world, tables, other, up, out)
}
