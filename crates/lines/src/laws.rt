// What holds of every list of turns: a law is the contract of a function that does nothing.
ghost use Rattle.lines.specs.Laws.{FaultsAreTheFirst, LastTurned, NoneIsPassedOver};

/// A link is up in the end exactly if the last turn of it says so.
pub fn links_stand_as_last_turned()
    ensures { LastTurned }
{}

/// Where there are links in the end, each line says a turn of two related networks, or nothing.
pub fn no_fault_is_passed_over()
    ensures { NoneIsPassedOver }
{}

/// The fault that is told is of its line, and each line before it says a turn of two related networks, or nothing.
pub fn faults_are_the_first()
    ensures { FaultsAreTheFirst }
{}
