//! Why a router refuses what it hears.

/// Why an update, a packet or a link change is refused: docs/RULES.md has the numbers.
#[derive(Clone, Copy, Debug, PartialEq, Eq)]
pub enum Fault {
    /// a path of no network, or of more than 64
    BadLength,
    /// a network that there is not
    NoSuchNetwork,
    /// a block that there is not
    NoSuchBlock,
    /// a teller that is not related
    NotRelated,
    /// a teller whose link is down
    LinkDown,
    /// a path that does not begin with the teller
    WrongStart,
    /// a path that does not end with the home of the block
    WrongEnd,
    /// a path that names a network twice
    Repeats,
    /// a path that is not valley-free, seen from this network; the villages say that it isn't paid
    NotValleyFree,
    /// a turn of a link between networks that are not related
    NoLink,
}
