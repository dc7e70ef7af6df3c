//! Telling the neighbours what is new to them.
ghost use Rattle.std.specs.Prelude.{◌≡◌, ℕ, ◌<◌, ◌&&◌, ◌∷◌, length, IfSome, MatchBool};
ghost use Rattle.std.specs.Option.{option_map};
ghost use Rattle.model.specs.Export.{same_saying};
ghost use Rattle.model.specs.Paths.{path_over};
ghost use Rattle.model.specs.declared.limits.TheConstants.{MOST_NETWORKS};
ghost use Rattle.selection.specs.Nodes.{link_up};
ghost use Rattle.selection.specs.Changes.{has_row};
ghost use Rattle.selection.specs.Paths.{count, row};
ghost use Rattle.advertisement.specs.Telling.{Told, is_news, row_if, rows_told, told_at};

use crate::policy::may_tell;
use relations::MOST;
use selection::{NetworkSet, Node, PathTable, Route, is_marked};

// The path that the network puts itself in front of and tells the neighbour, if it tells one.
fn onward<'a>(node: Node, route: Route<'a>, neighbour: u8) -> Option<&'a [u8]>
    ensures told { option_map (λ p. path_over (node.entry.me ∷ p.now)) result
        ≡ told_at node.entry route.entry neighbour }
    ensures short { IfSome result (λ p. length p.now < MOST_NETWORKS) }
{
    let to = node.world.relations.relation(node.me, neighbour);
    match route {
        Route::Local if to.is_related() => Some(&[]),
        Route::Via {
            neighbour: from,
            path,
        } if path.len() < MOST as usize
            && may_tell(node.world.relations.relation(node.me, from), to) => Some(path),
        _ => None,
    }
}

// Whether what was told last is what is to be told: the path with `me` in front, or nothing.
fn is_told(last: Option<&[u8]>, me: u8, path: Option<&[u8]>) -> bool
    ensures { result
        ≡ same_saying (option_map (λ p. path_over (me ∷ p.now)) path.entry)
        (option_map (λ x. path_over x.now) last.entry) }
{
    match (last, path) {
        (None, None) => true,
        (Some(last), Some(path)) => last.split_first() == Some((&me, path)),
        _ => false,
    }
}

/// Tells the neighbour what the network goes by for the block, if it is something else than it told
/// last; the answer says whether it was. What is told stands in the table from then on; where the
/// table has no row for it, nothing is told.
pub fn tell(node: Node, advertised: &mut PathTable, block: u16, route: Route, neighbour: u8) -> bool
    ensures test { result
        ≡ is_news advertised.old block neighbour (told_at node.entry route.entry neighbour) }
    ensures same { count advertised.new ≡ count advertised.old }
    ensures after { (b j : ℕ)
        → row advertised.new b j
        ≡ row_if (has_row advertised.old block neighbour) advertised.old block neighbour
        (told_at node.entry route.entry neighbour) b j }
    ensures kept { MatchBool result (Unit {0}) (advertised.new ≡ advertised.old) }
{
    let path = onward(node, route, neighbour);
    if is_told(advertised.path(block, neighbour), node.me, path) {
        return false;
    }
    match path {
        Some(path) => advertised.set_in_front(block, neighbour, node.me, path),
        None => {
            advertised.clear(block, neighbour);
            true
        }
    }
}

// Tells the neighbour if its link is up.
fn tell_if_up(
    node: Node,
    advertised: &mut PathTable,
    block: u16,
    route: Route,
    neighbour: u8,
) -> bool
    ensures test { result
        ≡ (link_up node.entry neighbour
        && is_news advertised.old block neighbour (told_at node.entry route.entry neighbour)) }
    ensures same { count advertised.new ≡ count advertised.old }
    ensures after { (b j : ℕ)
        → row advertised.new b j
        ≡ row_if (link_up node.entry neighbour && has_row advertised.old block neighbour)
        advertised.old block neighbour (told_at node.entry route.entry neighbour) b j }
{
    is_marked(node.up, neighbour) && tell(node, advertised, block, route, neighbour)
}

/// Tells each neighbour whose link is up, in the order of their numbers, what is new to it; the
/// answer says whom.
pub fn advertise(node: Node, advertised: &mut PathTable, block: u16, route: Route) -> NetworkSet
    ensures rows { (b k : ℕ)
        → row advertised.new b k ≡ rows_told advertised.old node.entry block route.entry b k }
    ensures whom { Told advertised.old node.entry block route.entry result }
    ensures same { count advertised.new ≡ count advertised.old }
{
    let mut audience = NetworkSet::none();
    for k in 0..node.world.relations.networks() {
        if tell_if_up(node, advertised, block, route, k) {
            audience.insert(k);
        }
    }
    audience
}
