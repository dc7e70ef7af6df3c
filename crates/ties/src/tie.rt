// One thing of a ties file: its head, or a tie.
ghost use Rattle.std.specs.Prelude.{◌≡◌, Some, None, MatchResult};
ghost use Rattle.model.specs.Checks.{first_fault};
ghost use Rattle.wire.specs.Reading.{input, place};
ghost use Rattle.ties.specs.Faults.{head_checks, rises};
ghost use Rattle.ties.specs.Steps.{HeadRead, TieRead, next_checks, pair_checks};

use crate::encoder::TIES;
use crate::kind::Kind;
use crate::refusal::Cause;
use relations::{MOST, Matrix, Relation};
use wire::Reader;

/// How many networks there are, and how many ties follow.
#[derive(Clone, Copy)]
pub struct Head {
    pub networks: u8,
    pub ties: u16,
}

/// Two networks, and what the second is to the first.
#[derive(Clone, Copy)]
pub struct Tie {
    pub first: u8,
    pub second: u8,
    pub relation: Relation,
}

impl Head {
    // The head, where the caller allows `most` networks. Each answer of the reader is taken apart by `let .. else`: of the
    // forms asked for in docs/DECISIONS.md, that is the one for this place.
    pub(crate) fn read(reader: &mut Reader, most: u8) -> Result<Head, Cause>
        requires { place reader.old ≡ 0 }
        ensures source { input reader.new ≡ input reader.old }
        ensures cases { MatchResult result (HeadRead most reader.old reader.new)
            (λ c. first_fault (head_checks most (input reader.old)) ≡ Some c) }
    {
        let Some(kind) = reader.byte() else {
            return Err(Cause::Cut);
        };
        if kind != TIES {
            return Err(Cause::UnknownKind);
        }
        let Some(networks) = reader.byte() else {
            return Err(Cause::Cut);
        };
        let Some(ties) = reader.word() else {
            return Err(Cause::Cut);
        };
        if networks == 0 || networks > MOST {
            return Err(Cause::BadCount);
        }
        if networks > most {
            return Err(Cause::TooMany);
        }
        Ok(Head { networks, ties })
    }
}

impl Tie {
    // The next tie, after those that `matrix` has, of which `last` was the last. By `let .. else`, as `Head::read`.
    pub(crate) fn read(
        reader: &mut Reader,
        matrix: &Matrix,
        last: Option<Tie>,
    ) -> Result<Tie, Cause>
        ensures source { input reader.new ≡ input reader.old }
        ensures cases { MatchResult result (TieRead matrix.now last reader.old reader.new)
            (λ c.
            first_fault (next_checks (input reader.old) (place reader.old) matrix.now last)
            ≡ Some c) }
    {
        let Some(first) = reader.byte() else {
            return Err(Cause::Cut);
        };
        let Some(second) = reader.byte() else {
            return Err(Cause::Cut);
        };
        let Some(kind) = reader.byte() else {
            return Err(Cause::Cut);
        };
        let kind = Kind::try_from(kind).map_err(|_| Cause::UnknownKind)?;
        let tie = Tie {
            first,
            second,
            relation: Relation::from(kind),
        };
        tie.check(matrix, last)?;
        Ok(tie)
    }

    // Whether the tie may stand after those that `matrix` has, of which `last` was the last.
    fn check(self, matrix: &Matrix, last: Option<Tie>) -> Result<(), Cause>
        ensures { let checks = pair_checks matrix.now last self in
            MatchResult result (λ _. first_fault checks ≡ None) (λ c. first_fault checks ≡ Some c) }
    {
        let networks = matrix.networks();
        if self.first >= networks || self.second >= networks {
            return Err(Cause::NoSuchNetwork);
        }
        if let Some(before) = last
            && !self.follows(before)
        {
            return Err(Cause::NotRising);
        }
        if matrix.relation(self.first, self.second).is_related() {
            return Err(Cause::SamePair);
        }
        if self.relation == Relation::Peer && self.second < self.first {
            return Err(Cause::PeersTurned);
        }
        if self.first == self.second {
            return Err(Cause::Itself);
        }
        Ok(())
    }

    // Whether the tie comes after another in rising order of the first and then the second number.
    fn follows(self, before: Tie) -> bool
        ensures { result ≡ rises before.first before.second self.first self.second }
    {
        (before.first, before.second) < (self.first, self.second)
    }
}
