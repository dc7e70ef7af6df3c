//! Which path a network goes by.
ghost use Rattle.std.specs.Prelude.{◌≡◌};
ghost use Rattle.std.specs.Option.{option_map};
ghost use Rattle.model.specs.Selection.{keys as keys_of, rank as rank_of};
ghost use Rattle.model.specs.Paths.{passes as passes_by, path_over};
ghost use Rattle.selection.specs.Meaning.{meaning};
ghost use Rattle.selection.specs.Nodes.{candidate_at, relation_to, selected_at};
ghost use Rattle.selection.specs.Paths.{row};

use crate::node::Node;
use crate::route::Route;
use crate::set::is_marked;
use crate::table::PathTable;
use relations::Relation;

// Customers come before peers, and peers before providers.
fn rank(relation: Relation) -> usize
    ensures { result ≡ rank_of relation }
{
    match relation {
        Relation::Customer => 0,
        Relation::Peer => 1,
        Relation::Provider => 2,
        Relation::Unrelated => 3,
    }
}

/// Whether the path passes the network `me`.
pub fn passes(path: &[u8], me: u8) -> bool
    ensures { result ≡ passes_by me path.now }
{
    path.contains(&me)
}

// The path by `neighbour` that the network may go by, if any.
fn candidate<'a>(node: Node, received: &'a PathTable, block: u16, neighbour: u8) -> Option<&'a [u8]>
    ensures { option_map (λ x. path_over x.now) result
        ≡ candidate_at node.entry (row received.now) block neighbour }
{
    let relation = node.world.relations.relation(node.me, neighbour);
    if !relation.is_related() || !is_marked(node.up, neighbour) {
        return None;
    }
    let path = received.path(block, neighbour)?;
    (!passes(path, node.me)).then_some(path)
}

// What candidates are compared by, the first difference decides: the rank, the length, the number.
fn keys(node: Node, neighbour: u8, path: &[u8]) -> [usize; 3]
    ensures { result ≡ keys_of (relation_to node.entry) neighbour (path_over path.now) }
{
    let relation = node.world.relations.relation(node.me, neighbour);
    [rank(relation), path.len(), neighbour as usize]
}

/// What the network goes by for a block: its own home, or the best of what its neighbours told it.
pub fn select<'a>(node: Node, received: &'a PathTable, block: u16) -> Route<'a>
    ensures { meaning result ≡ selected_at node.entry (row received.now) block }
{
    if node.world.is_home(block, node.me) {
        return Route::Local;
    }
    let mut best = Route::Nothing;
    'candidates: for j in 0..node.world.relations.networks() {
        let Some(path) = candidate(node, received, block, j) else {
            continue;
        };
        let new = keys(node, j, path);
        if let Route::Via { neighbour, path } = best {
            let old = keys(node, neighbour, path);
            // Left by the label at the first difference, a form that the project asks for
            // (docs/DECISIONS.md).
            for (new, old) in new.iter().zip(&old) {
                if new > old {
                    continue 'candidates;
                }
                if new < old {
                    break;
                }
            }
        }
        best = Route::Via { neighbour: j, path };
    }
    best
}
