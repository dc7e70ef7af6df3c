//! Who may be told.
ghost use Rattle.std.specs.Prelude.{◌≡◌};
ghost use Rattle.model.specs.Export.{may_tell};

use relations::Relation;

/// Whether a path that a neighbour told, which is `from` to this network, may be told to one that
/// is `to`: customers' paths go to all, those of peers and providers to customers only.
pub fn may_tell(from: Relation, to: Relation) -> bool
    ensures { result ≡ may_tell from to }
{
    match (from, to) {
        (Relation::Customer, Relation::Customer | Relation::Peer | Relation::Provider) => true,
        (Relation::Peer | Relation::Provider, Relation::Customer) => true,
        _ => false,
    }
}
