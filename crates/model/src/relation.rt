//! What one network is to another.
ghost use Rattle.std.specs.Prelude.{◌≡◌};
ghost use Rattle.model.specs.Relations.{opposite, related};

/// What the other network is to this one. The villages call two related networks tied.
#[derive(Clone, Copy, Debug, PartialEq, Eq)]
pub enum Relation {
    /// no link joins the two
    Unrelated,
    /// it pays this one
    Customer,
    /// neither pays the other
    Peer,
    /// this one pays it
    Provider,
}

impl Relation {
    /// What this network is to the other, where the other is `self` to this one.
    pub fn opposite(self) -> Relation
        ensures { result ≡ opposite self }
    {
        match self {
            Relation::Unrelated => Relation::Unrelated,
            Relation::Customer => Relation::Provider,
            Relation::Peer => Relation::Peer,
            Relation::Provider => Relation::Customer,
        }
    }

    /// Whether the two are related at all.
    pub fn is_related(self) -> bool
        ensures { result ≡ related self }
    {
        self != Relation::Unrelated
    }
}
