//! What holds of the answers in the examples: a law is the contract of a function that does nothing.
ghost use Rattle.answered_cases.specs.Table.{EveryAnswerHolds};

/// Every row of the table of answers holds.
pub fn every_answer_holds()
    ensures { EveryAnswerHolds }
{}
