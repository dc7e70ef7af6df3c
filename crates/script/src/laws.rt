// What holds of every script: a law is the contract of a function that does nothing.
ghost use Rattle.script.specs.Laws.{AddressReadsBack, CommentsSayNothing, LineByLine, NextByNext, OtherCommands, OthersUnknown, ReadsBack, ScriptReadsBack, TurnsAlone, TurnsAsInScripts, TurnsLineByLine, TurnsNextByNext};

/// A command that is written out reads back as itself.
pub fn written_reads_back()
    ensures { ReadsBack }
{}

/// The dotted form of an address reads back as that address.
pub fn addresses_read_back()
    ensures { AddressReadsBack }
{}

/// A comment changes nothing.
pub fn comments_say_nothing()
    ensures { CommentsSayNothing }
{}

/// A line, a feed and a script read as that line and then the script.
pub fn scripts_read_line_by_line()
    ensures { LineByLine }
{}

/// A script of commands that are written out says these commands, in their order.
pub fn written_script_reads_back()
    ensures { ScriptReadsBack }
{}

/// What `next` gives again and again is all that a script says.
pub fn next_by_next_is_the_whole()
    ensures { NextByNext }
{}

/// In a list of turns a line without a word, or with the first word `turn`, reads as in a script, its fault too.
pub fn turns_read_as_in_scripts()
    ensures { TurnsAsInScripts }
{}

/// Any other line of a list of turns has an unknown word, or a bad byte.
pub fn other_lines_are_unknown()
    ensures { OthersUnknown }
{}

/// So a command that is no turn is an unknown word there.
pub fn other_commands_are_unknown()
    ensures { OtherCommands }
{}

/// A text says turns alone as a list of turns exactly if it does as a script, and then it says the same.
pub fn turns_alone_say_the_same()
    ensures { TurnsAlone }
{}

/// A line, a feed and a list of turns read as that line and then the list.
pub fn turns_read_line_by_line()
    ensures { TurnsLineByLine }
{}

/// What `next_turn` gives again and again is all that a list of turns says.
pub fn next_turn_by_next_turn_is_the_whole()
    ensures { TurnsNextByNext }
{}
