//! What holds of every line that is printed: a law is the contract of a function that does nothing.
ghost use Rattle.routes.specs.Laws.{LinesTellBlocks, LinesTellRoutes, LinesTellWays, SettledIsTold};

/// A line tells which network it is of, and what that goes by.
pub fn lines_tell_routes()
    ensures { LinesTellRoutes }
{}

/// The line of a block tells which block it is, its addresses and its home.
pub fn lines_tell_blocks()
    ensures { LinesTellBlocks }
{}

/// In an account a line tells which network it is of, what that goes by, and, where that is nothing, whether some way
/// leads home.
pub fn lines_tell_ways()
    ensures { LinesTellWays }
{}

/// What is printed of a settled routing tells the stable routing, and from where a way leads home.
pub fn settled_is_told()
    ensures { SettledIsTold }
{}
