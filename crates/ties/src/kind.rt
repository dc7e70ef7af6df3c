// What a tie is, as a ties file has it: of which two networks, seen from which end, and by which byte.
ghost use Rattle.std.specs.Prelude.{◌≡◌, false, MatchResult, MatchOption, [], ◌∷◌};
ghost use Rattle.relations.specs.Sound.{relation as relation_of};
ghost use Rattle.ties.specs.Encoding.{listed};
ghost use Rattle.ties.specs.Kind.{byte as kind_byte, is_kind, meaning};

use relations::{Relation, Relations};

/// The kind of a tie, by which of its two networks stands first in the file.
#[derive(Clone, Copy, Debug, PartialEq, Eq)]
pub enum Kind {
    /// the network that stands first is a customer of the second
    Customer,
    /// the two are peers
    Peers,
}

/// A byte that is no kind.
#[derive(Clone, Copy, Debug, PartialEq, Eq)]
pub struct UnknownKind;

impl TryFrom<u8> for Kind {
    type Error = UnknownKind;

    ghost try_from_gives = { λ byte r.
        MatchResult r (λ kind. kind_byte kind ≡ byte) (λ _. is_kind byte ≡ false) };

    fn try_from(byte: u8) -> Result<Kind, UnknownKind> {
        match byte {
            1 => Ok(Kind::Customer),
            2 => Ok(Kind::Peers),
            _ => Err(UnknownKind),
        }
    }
}

impl From<Kind> for u8 {
    ghost from_gives = { λ kind byte. byte ≡ kind_byte kind };

    fn from(kind: Kind) -> u8 {
        match kind {
            Kind::Customer => 1,
            Kind::Peers => 2,
        }
    }
}

// What the second network is to the first.
impl From<Kind> for Relation {
    ghost from_gives = { λ kind relation. relation ≡ meaning kind };

    fn from(kind: Kind) -> Relation {
        match kind {
            Kind::Customer => Relation::Provider,
            Kind::Peers => Relation::Peer,
        }
    }
}

// The kind of the tie of networks i and j, if it is i that stands first.
pub(crate) fn listed_as(relations: &Relations, i: u8, j: u8) -> Option<Kind>
    ensures { let tie = listed (relation_of relations.now i j) i j in
        MatchOption result (tie ≡ [])
        (λ kind. tie ≡ record { one = i; other = j; kind = kind_byte kind } ∷ []) }
{
    match relations.relation(i, j) {
        Relation::Provider => Some(Kind::Customer),
        Relation::Peer if i < j => Some(Kind::Peers),
        Relation::Unrelated | Relation::Customer | Relation::Peer => None,
    }
}
