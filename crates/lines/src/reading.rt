// Links are all down, and turn as a list of turns says.
ghost use Rattle.std.specs.Prelude.{◌≡◌, ◌<◌, false, length, MatchResult};
ghost use Rattle.model.specs.Relations.{related};
ghost use Rattle.relations.specs.Sound.{networks as networks_of, relation as relation_of};
ghost use Rattle.script.specs.Next.{left_of, line_of};
ghost use Rattle.script.specs.Turns.{turn_entries_in};
ghost use Rattle.stable.specs.Linked.{up};
ghost use Rattle.lines.specs.declared.cause.Cause.TheVariants.{NoLink};
ghost use Rattle.lines.specs.After.{Linked, Said, Shortens, at_line, links_after, links_said, placed, taken};
ghost use Rattle.lines.specs.Faults.{LowestTold};

use crate::cause::Cause;
use relations::Relations;
use script::{Line, Script, Turn};
use stable::LinkSet;
use text::Fault;

// The link of two networks that there are turns, if they are related.
fn turn_link(links: &mut LinkSet, relations: &Relations, turn: Turn) -> Result<(), Cause>
    requires first { turn.first < networks_of relations.now }
    requires second { turn.second < networks_of relations.now }
    ensures { MatchResult result (λ _. Linked relations.now turn (up links.old) (up links.new))
        (λ cause.
        (cause ≡ NoLink) × (related (relation_of relations.now turn.first turn.second) ≡ false)) }
{
    let turned = links.turn(relations, turn.first, turn.second, turn.up);
    turned.map_err(|_| Cause::NoLink)
}

// Reads the next turn, and turns its link. Was there a turn?
fn take_turn(
    script: &mut Script<'_>,
    links: &mut LinkSet,
    relations: &Relations,
) -> Result<bool, Cause>
    ensures after { links_after relations.now (up links.old)
        (turn_entries_in (networks_of relations.now) script.old) ≡
        taken (at_line script.new) relations.now result (up links.new) (line_of script.new)
        (left_of script.new) }
    ensures shortens { Shortens result (length (left_of script.old)) (length (left_of script.new)) }
{
    let Some(turn) = script.next_turn(relations.networks())? else {
        return Ok(false);
    };
    turn_link(links, relations, turn)?;
    Ok(true)
}

// The same, and a fault is told with its line.
fn take_line(
    script: &mut Script<'_>,
    links: &mut LinkSet,
    relations: &Relations,
) -> Result<bool, Fault<Line, Cause>>
    ensures after { links_after relations.now (up links.old)
        (turn_entries_in (networks_of relations.now) script.old) ≡
        taken placed relations.now result (up links.new) (line_of script.new) (left_of script.new) }
    ensures shortens { Shortens result (length (left_of script.old)) (length (left_of script.new)) }
{
    let taken = take_turn(script, links, relations);
    let place = Line(script.line());
    taken.map_err(|cause| Fault { place, cause })
}

/// The links after all turns of a list, or its first fault. Before it every link is down.
pub fn read_links(bytes: &[u8], relations: &Relations) -> Result<LinkSet, Fault<Line, Cause>>
    ensures said { Said (links_said relations.now bytes.now) result }
    ensures lowest { LowestTold relations.now bytes.now result }
{
    let mut links = LinkSet::none();
    let mut script = Script::new(bytes);
    while take_line(&mut script, &mut links, relations)? {}
    Ok(links)
}
