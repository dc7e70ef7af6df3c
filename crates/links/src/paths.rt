//! What is asked of a path before it is held.
ghost use Rattle.std.specs.Prelude.{◌≡◌, ◌&&◌};
ghost use Rattle.selection.specs.Worlds.{is_home_of};
ghost use Rattle.relations.specs.Sound.{relation as relation_of};
ghost use Rattle.model.specs.Paths.{allowed as allowed_by, begins as begins_by, below as below_by, ends, repeats as repeats_by, valley_free};

use relations::{Relation, Relations};
use selection::World;

/// Whether the first network of the path is `teller`.
pub fn begins(path: &[u8], teller: u8) -> bool
    ensures { result ≡ begins_by teller path.now }
{
    path.first() == Some(&teller)
}

/// Whether the last network of the path is a home of the block.
pub fn ends_at_home(path: &[u8], world: World<'_>, block: u16) -> bool
    ensures { result ≡ ends (is_home_of world.entry block) path.now }
{
    match path.last() {
        Some(last) => world.is_home(block, *last),
        None => false,
    }
}

/// Whether every network of the path is below `n`.
pub fn below(path: &[u8], n: u8) -> bool
    ensures { result ≡ below_by n path.now }
{
    path.iter().all(|network| *network < n)
}

/// Whether the path names a network twice.
pub fn repeats(path: &[u8]) -> bool
    ensures { result ≡ repeats_by path.now }
{
    let mut left = path;
    while let Some((first, rest)) = left.split_first() {
        if rest.contains(first) {
            return true;
        }
        left = rest;
    }
    false
}

// Whether a path that still climbs, or no longer does, may go on to a network that is `relation`.
fn allowed(climbing: bool, relation: Relation) -> bool
    ensures { result ≡ allowed_by climbing relation }
{
    match relation {
        Relation::Customer => true,
        Relation::Peer | Relation::Provider => climbing,
        Relation::Unrelated => false,
    }
}

/// Whether the path is valley-free, seen from network `me`: up to providers, at most once over to a
/// peer, down to customers.
pub fn is_valley_free(relations: &Relations, me: u8, path: &[u8]) -> bool
    ensures { result ≡ valley_free (relation_of relations.now) me path.now }
{
    let mut climbing = true;
    let mut at = me;
    for network in path {
        let relation = relations.relation(at, *network);
        if !allowed(climbing, relation) {
            return false;
        }
        climbing = climbing && relation == Relation::Provider;
        at = *network;
    }
    true
}
