//! What holds of the examples: a law is the contract of a function that does nothing.
ghost use Rattle.cases.specs.Table.{EveryCaseHolds};

/// Every row of the table of cases holds.
pub fn every_case_holds()
    ensures { EveryCaseHolds }
{}
