// Reading a script, line by line.
ghost use Rattle.std.specs.Prelude.{◌≡◌, length};
ghost use Rattle.script.specs.Faults.{line_checks};
ghost use Rattle.script.specs.Lowest.{LowestTold};
ghost use Rattle.script.specs.Next.{Bounded, Falls, left_of, line_of};
ghost use Rattle.script.specs.Turns.{TurnBounded, turn_coming, turn_entries_in, turn_line_checks, turns_then};
ghost use Rattle.script.specs.Whole.{coming, entries_of, followed};

use crate::cause::Cause;
use crate::command::{Command, Limits, Turn};
use crate::reading::read_line;
use crate::script::Script;
use crate::turns::read_turn_line;

impl<'a> Script<'a> {
    /// A reader that has read nothing yet.
    pub fn new(bytes: &'a [u8]) -> Script<'a>
        ensures left { left_of result ≡ bytes.now }
        ensures line { line_of result ≡ 0 }
    {
        Script {
            rest: bytes,
            line: 0,
        }
    }

    /// The line that was read last, counted from 1; 0 before the first.
    pub fn line(&self) -> usize
        ensures { result ≡ line_of self.now }
    {
        self.line
    }

    /// Reads on to the next command or fault, which `line` then tells the line of. At the end there is none. After a fault
    /// reading goes on with the next line.
    pub fn next(&mut self, limits: Limits) -> Result<Option<Command>, Cause>
        ensures answer { result ≡ (coming limits self.old).answer }
        ensures line { line_of self.new ≡ (coming limits self.old).line }
        ensures left { left_of self.new ≡ (coming limits self.old).left }
        ensures whole { entries_of limits self.old ≡ followed limits result self.new }
        ensures within { Bounded limits result }
        ensures lowest { LowestTold (line_checks limits) self.old self.new result }
        ensures falls { Falls result (length (left_of self.old)) (length (left_of self.new)) }
    {
        self.next_by(|line| read_line(line, limits))
    }

    /// The same of a list of turns, where `turn` alone is a known first word.
    pub fn next_turn(&mut self, networks: u8) -> Result<Option<Turn>, Cause>
        ensures answer { result ≡ (turn_coming networks self.old).answer }
        ensures line { line_of self.new ≡ (turn_coming networks self.old).line }
        ensures left { left_of self.new ≡ (turn_coming networks self.old).left }
        ensures whole { turn_entries_in networks self.old ≡ turns_then networks result self.new }
        ensures within { TurnBounded networks result }
        ensures lowest { LowestTold (turn_line_checks networks) self.old self.new result }
        ensures falls { Falls result (length (left_of self.old)) (length (left_of self.new)) }
    {
        self.next_by(|line| read_turn_line(line, networks))
    }
}
