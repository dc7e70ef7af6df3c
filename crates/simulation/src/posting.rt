//! Letters: which is the oldest, and which stay.
ghost use Rattle.std.specs.Prelude.{◌≡◌, ◌+◌, [], ◌++◌, take, drop, IfOk, MatchOption};
ghost use Rattle.simulation.specs.Posting.{Oldest, updates_sent};
ghost use Rattle.simulation.specs.Posts.{between, cut, posts};

use crate::letter::Letter;
use std::alloc::{AllocError, Global};

// The place of the oldest letter from one network to another.
pub(crate) fn oldest(letters: &[Letter], from: u8, to: u8) -> Option<usize>
    ensures { MatchOption result (between from to (posts letters.now) ≡ [])
        (λ place. Oldest from to place letters.now) }
{
    letters.iter().position(|letter| letter.goes(from, to))
}

// All letters but the one at a place, if there is one.
pub(crate) fn without(
    letters: &[Letter],
    place: usize,
    heap: Global,
) -> Result<Vec<Letter>, AllocError>
    ensures { IfOk result
        (λ left. left.items ≡ take place letters.now ++ drop (place + 1) letters.now) }
{
    let mut left = letters.to_vec(heap)?;
    if place < left.len() {
        left.remove(place);
    }
    Ok(left)
}

// The letters that do not go over the link of two networks.
pub(crate) fn cut_link(
    letters: &[Letter],
    one: u8,
    other: u8,
    heap: Global,
) -> Result<Vec<Letter>, AllocError>
    ensures { IfOk result (λ left. posts left.items ≡ cut one other (posts letters.now)) }
{
    letters
        .iter()
        .copied()
        .filter(|letter| !letter.crosses(one, other))
        .collect(heap)
}

// How many of the letters are updates.
pub(crate) fn updates(letters: &[Letter]) -> usize
    ensures { result ≡ updates_sent letters.now }
{
    letters.iter().filter(|letter| letter.is_update()).count()
}
