//! What holds of the definitions: a law is the contract of a function that does nothing.
ghost use Rattle.model.specs.Heights.{Heights};
ghost use Rattle.model.specs.Cycles.{OneFirst};
ghost use Rattle.model.specs.SelectionLaws.{NoneBefore, NoneLeft, Only, OwnHome, RankDecides, Strict, Usable};
ghost use Rattle.model.specs.ExportLaws.{AllToCustomers, BeginsWithTeller, NoFreeRide, SameSaying};
ghost use Rattle.model.specs.RouterLaws.{LowestIsTold, StaysProper};

/// Where there is no cycle, providers stand above their customers.
pub fn heights_exist()
    ensures { Heights }
{}

/// At most one cycle is the first.
pub fn first_is_unique()
    ensures { OneFirst }
{}

/// A path that is chosen is the candidate of a neighbour that there is.
pub fn chosen_is_candidate()
    ensures { Usable }
{}

/// No candidate is before the one that is chosen.
pub fn none_before_chosen()
    ensures { NoneBefore }
{}

/// Where nothing is chosen there is no candidate.
pub fn nothing_without_candidate()
    ensures { NoneLeft }
{}

/// The home, and no other, goes by its own.
pub fn home_by_its_own()
    ensures { OwnHome }
{}

/// The order of candidates is strict, and of two neighbours' one is before the other.
pub fn strict_order()
    ensures { Strict }
{}

/// A candidate that none is before is what is chosen.
pub fn only_choice()
    ensures { Only }
{}

/// What the neighbours of the ranks below one offer decides whether one of them is chosen, and
/// which.
pub fn rank_decides()
    ensures { RankDecides }
{}

/// Nothing that a peer or a provider told is told to a peer or a provider.
pub fn no_free_ride()
    ensures { NoFreeRide }
{}

/// What is told begins with the teller, and goes on as the teller goes.
pub fn begins_with_teller()
    ensures { BeginsWithTeller }
{}

/// Customers are told all that is gone by, if it has below 64 networks and its neighbour is
/// related.
pub fn all_to_customers()
    ensures { AllToCustomers }
{}

/// The test of two sayings decides whether they are the same.
pub fn same_saying_decides()
    ensures { SameSaying }
{}

/// Whatever its neighbours send, a router holds only paths that begin with the teller, end at the
/// home, repeat nothing and are valley-free seen from it.
pub fn held_paths_are_proper()
    ensures { StaysProper }
{}

/// Of an update, a link change and a packet: the fault that is told is one that there is, none that
/// there is has a lower number, and where none is told there is none.
pub fn lowest_fault_is_told()
    ensures { LowestIsTold }
{}
