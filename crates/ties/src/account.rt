// What a sound ties file is told by.
ghost use Rattle.std.specs.Prelude.{◌≡◌, length, Some};
ghost use Rattle.relations.specs.Sound.{networks as networks_of, relation as relation_of};
ghost use Rattle.ties.specs.Encoding.{listing, row};
ghost use Rattle.ties.specs.Summary.{summary_words};

use crate::kind::listed_as;
use relations::Relations;
use std::fmt;

// How many ties stand in the file with network i first.
fn count_row(relations: &Relations, i: u8) -> u8
    ensures { result ≡ length (row (networks_of relations.now) (relation_of relations.now) i) }
{
    (0..relations.networks())
        .filter(|j| listed_as(relations, i, *j).is_some())
        .count() as u8
}

/// How many ties there are.
pub fn count_ties(relations: &Relations) -> u16
    ensures { result ≡ length (listing (networks_of relations.now) (relation_of relations.now)) }
{
    (0..relations.networks())
        .map(|i| u16::from(count_row(relations, i)))
        .sum()
}

/// Shows what is told of sound relations, as `60 networks, 131 ties, sound`.
#[derive(Clone, Copy)]
pub struct Summary<'a>(pub &'a Relations);

impl fmt::Display for Summary<'_> {
    ghost output = { λ summary.
        Some (summary_words (networks_of summary.0.now) (relation_of summary.0.now)) };

    fn fmt<W: fmt::Write>(&self, f: &mut fmt::Formatter<W>) -> fmt::Result {
        let networks = self.0.networks();
        let ties = count_ties(self.0);
        write!(f, "{networks} networks, {ties} ties, sound")
    }
}
