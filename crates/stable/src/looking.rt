//! Networks that look at what the others show, all at once, until nothing is new.
ghost use Rattle.std.specs.Prelude.{◌≡◌, ℕ, ◌<◌, ◌&&◌, true, IfOk, MatchBool, MatchOption, nat_lt};
ghost use Rattle.model.specs.declared.limits.TheConstants.{MOST_NETWORKS};
ghost use Rattle.relations.specs.Sound.{relation as relation_of};
ghost use Rattle.selection.specs.Meaning.{meaning};
ghost use Rattle.selection.specs.Sets.{member};
ghost use Rattle.selection.specs.Worlds.{is_home_of};
ghost use Rattle.stable.specs.Looking.{shows as shows_by};
ghost use Rattle.stable.specs.Networks.{AddsRelated, Looked, OfOne, SameIn, SameOutsideIn, ShowsLast, UpToDateIn, HasAffected, Written, count_in, is_home_in, looks_in, related_in, showing, shown_in, shows_in, is_teller_in, tells_in, view_in};
ghost use Rattle.stable.specs.Ways.{Kept};

use crate::linked::LinkSet;
use advertisement::may_tell;
use selection::{NetworkSet, Node, PathTable, Route, World, select};
use std::alloc::{AllocError, Global};
use std::mem::swap;

/// The networks that look: what they share, which links are up, and the block that they look for.
/// What each shows stands in a table of one block.
#[derive(Clone, Copy)]
pub(crate) struct Networks<'a> {
    pub world: World<'a>,
    pub links: &'a LinkSet,
    pub block: u16,
}

impl Networks<'_> {
    // Whether a network is a home of the block.
    pub(crate) fn is_home(self, network: u8) -> bool
        ensures { result ≡ is_home_in self.entry network }
    {
        self.world.is_home(self.block, network)
    }

    // Whether a network tells another what it shows: its own home to all, a path by what the next
    // network is to it.
    #[tactic(auto, using(crate::proofs::Looks::none_for_unrelated))]
    fn shows(self, shown: &PathTable, from: u8, to: u8) -> bool
        ensures { result ≡ shows_in self.entry shown.now to from }
    {
        let told = self.world.relations.relation(from, to);
        if !told.is_related() {
            return false;
        }
        match shown.path(0, from) {
            Some([_]) => true,
            Some([_, next, ..]) => may_tell(self.world.relations.relation(from, *next), told),
            _ => false,
        }
    }

    // Whether a network tells another what it shows, over a link that is up.
    fn tells(self, shown: &PathTable, from: u8, to: u8) -> bool
        ensures { result ≡ tells_in self.entry shown.now to from }
    {
        self.shows(shown, from, to) && self.links.is_up(from, to)
    }

    // The networks that tell network `me` what they show.
    fn tellers(self, shown: &PathTable, me: u8) -> NetworkSet
        ensures { (j : ℕ) → member result j ≡ is_teller_in self.entry shown.now me j }
    {
        let mut tellers = NetworkSet::none();
        for from in 0..self.world.relations.networks() {
            if self.tells(shown, from, me) {
                tellers.insert(from);
            }
        }
        tellers
    }

    // What network `me` goes by when it looks at what the others show.
    pub(crate) fn view<'a>(self, shown: &'a PathTable, me: u8) -> Route<'a>
        ensures { meaning result ≡ view_in self.entry shown.now me }
    {
        let tellers = self.tellers(shown, me);
        let node = Node {
            world: from_block(self.world, self.block),
            up: tellers.as_slice(),
            me,
        };
        select(node, shown, 0)
    }

    // Network `me` looks, and what it then shows is written.
    fn look(self, shown: &PathTable, next: &mut PathTable, me: u8)
        requires there { OfOne next.old }
        requires me { me < MOST_NETWORKS }
        ensures same { OfOne next.new }
        ensures after { Written next.old next.new me (shown_in self.entry shown.now me) }
    {
        match self.view(shown, me) {
            Route::Nothing => next.clear(0, me),
            Route::Local => {
                next.set(0, me, &[me]);
            }
            Route::Via { path, .. } => {
                if !next.set_in_front(0, me, me, path) {
                    next.clear(0, me);
                }
            }
        }
    }

    // Adds a network to a set if it is related to another.
    fn add_if_related(self, other: u8, set: &mut NetworkSet, me: u8)
        requires { me < MOST_NETWORKS }
        ensures kept { Kept (member set.old) (member set.new) }
        ensures added { related_in self.entry me other ≡ true → member set.new me ≡ true }
    {
        if !set.contains(me) && self.world.relations.relation(me, other).is_related() {
            set.insert(me);
        }
    }

    // Adds all that are related to a network.
    fn add_related(self, other: u8, set: &mut NetworkSet)
        ensures kept { Kept (member set.old) (member set.new) }
        ensures added { AddsRelated self.entry other set.new }
    {
        for me in 0..self.world.relations.networks() {
            self.add_if_related(other, set, me);
        }
    }

    // The networks of a set, and all that are related to one of it.
    #[tactic(auto, using(crate::proofs::Unaffected::from_related))]
    fn with_related(self, changed: NetworkSet) -> NetworkSet
        ensures { HasAffected self.entry changed result }
    {
        let mut set = changed;
        for other in 0..self.world.relations.networks() {
            if changed.contains(other) {
                self.add_related(other, &mut set);
            }
        }
        set
    }

    // Network `me` looks if it is due, or shows what it showed.
    fn look_if_due(self, due: NetworkSet, shown: &PathTable, next: &mut PathTable, me: u8)
        requires there { OfOne next.old }
        requires me { me < count_in self }
        requires up_to_date { UpToDateIn self due shown.now }
        ensures same { OfOne next.new }
        ensures after { Written next.old next.new me (shown_in self.entry shown.now me) }
    {
        if due.contains(me) {
            self.look(shown, next, me);
        } else {
            show_again(shown, next, me);
        }
    }

    // Every network looks at what the others show, all at once.
    fn look_all(self, due: NetworkSet, shown: &PathTable, next: &mut PathTable)
        requires there { OfOne next.old }
        requires up_to_date { UpToDateIn self due shown.now }
        ensures same { OfOne next.new }
        ensures after { Looked self.entry shown.now next.new }
    {
        for me in 0..self.world.relations.networks() {
            self.look_if_due(due, shown, next, me);
        }
    }

    // The networks that do not show the same in both tables; none if all do.
    fn changed(self, shown: &PathTable, next: &PathTable) -> Option<NetworkSet>
        ensures { MatchOption result
            (SameIn self.entry shown.now next.now)
            (λ set. SameOutsideIn self.entry set shown.now next.now) }
    {
        let mut changed = NetworkSet::none();
        let mut same = true;
        for me in 0..self.world.relations.networks() {
            if differs(shown, next, me) {
                changed.insert(me);
                same = false;
            }
        }
        (!same).then_some(changed)
    }

    // Every network that there is.
    fn all(self) -> NetworkSet
        ensures { (j : ℕ) → j < count_in self.entry → member result j ≡ true }
    {
        let mut all = NetworkSet::none();
        for network in 0..self.world.relations.networks() {
            all.insert(network);
        }
        all
    }

    // Those that are due look, and what they then show takes the place of what they showed. The
    // networks that are then due; none if all show the same.
    fn look_again(
        self,
        due: NetworkSet,
        shown: &mut PathTable,
        next: &mut PathTable,
    ) -> Option<NetworkSet>
        requires there { OfOne shown.old × OfOne next.old }
        requires up_to_date { UpToDateIn self due shown.old }
        ensures same { OfOne shown.new × OfOne next.new }
        ensures after { Looked self.entry shown.old shown.new }
        ensures answer { MatchOption result
            (SameIn self.entry shown.old shown.new)
            (λ set. UpToDateIn self.entry set shown.new) }
    {
        self.look_all(due, shown, next);
        swap(shown, next);
        let changed = self.changed(next, shown)?;
        Some(self.with_related(changed))
    }

    // How often they look, at most.
    fn looks(self) -> u8
        ensures { result ≡ looks_in self.entry }
    {
        2 * self.world.relations.networks() + 1
    }

    // What each shows when they have looked until a look shows nothing new, at most 2n + 1 times.
    pub(crate) fn look_until_same(self, heap: Global) -> Result<PathTable, AllocError>
        ensures { IfOk result (λ t. ShowsLast self.entry t) }
    {
        let mut shown = PathTable::new(heap, 1)?;
        let mut next = PathTable::new(heap, 1)?;
        let mut due = self.all();
        for _look in 0..self.looks() {
            let Some(then) = self.look_again(due, &mut shown, &mut next) else {
                return Ok(shown);
            };
            due = then;
        }
        Ok(shown)
    }
}

// The world whose block 0 is at home where a block of another is.
fn from_block(world: World<'_>, block: u16) -> World<'_>
    ensures relations { result.relations ≡ world.entry.relations }
    ensures homes { (i : ℕ) → is_home_of result 0 i ≡ is_home_of world.entry block i }
{
    World {
        homes: world.homes.get(block as usize..).unwrap_or(&[]),
        ..world
    }
}

// Whether a network shows something else in the second table.
fn differs(shown: &PathTable, next: &PathTable, me: u8) -> bool
    ensures { MatchBool result (Unit {0}) (showing shown.now me ≡ showing next.now me) }
{
    shown.path(0, me) != next.path(0, me)
}

// A network shows what it showed.
fn show_again(shown: &PathTable, next: &mut PathTable, me: u8)
    requires there { OfOne next.old }
    requires me { me < MOST_NETWORKS }
    ensures same { OfOne next.new }
    ensures after { Written next.old next.new me (showing shown.now me) }
{
    match shown.path(0, me) {
        Some(path) => {
            next.set(0, me, path);
        }
        None => next.clear(0, me),
    }
}
