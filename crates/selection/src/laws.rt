//! What holds of every selection from tables: each function's contract is a theorem, and the
//! function does nothing.
ghost use Rattle.std.specs.Prelude.{◌≡◌};
ghost use Rattle.selection.specs.Laws.{CustomersDecide, SameBytes};
ghost use Rattle.selection.specs.declared.table.methods.TheConstants.{MOST_BLOCKS};

/// If two tables of one network agree on what its customers told, with the same links to customers
/// up, then either it selects a customer's path from both, and the same, or from neither.
pub fn customers_decide()
    ensures { CustomersDecide }
{}

/// Tables whose rows say the same hold the same bytes.
pub fn same_rows_same_bytes()
    ensures { SameBytes }
{}

/// A table has at most as many blocks as people are told: 256.
pub fn limit_as_told()
    ensures { MOST_BLOCKS ≡ 256 }
{}
