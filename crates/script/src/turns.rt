// Reading a turn, and a line of a list of turns.
ghost use Rattle.std.specs.Prelude.{◌≡◌};
ghost use Rattle.script.specs.Parts.{words};
ghost use Rattle.script.specs.Turns.{read_turn as turn_says, read_turn_line as turn_line_says, read_turn_words as turn_words_say};

use crate::cause::Cause;
use crate::command::Turn;
use crate::cut::split_word;
use crate::parts::{next_word, no_more, pair, plain_content, standing_of};

// `turn I J up` or `turn I J down`, behind the first word.
pub(crate) fn read_turn(rest: &[u8], networks: u8) -> Result<Turn, Cause>
    ensures { result ≡ turn_says networks (words rest.now) }
{
    let (first, rest) = next_word(rest)?;
    let (second, rest) = next_word(rest)?;
    let (standing, rest) = next_word(rest)?;
    let up = standing_of(standing)?;
    no_more(rest)?;
    let (first, second) = pair(first, second, networks)?;
    Ok(Turn { first, second, up })
}

// The turn that the words ask for, where there is no other command; without a word, none.
fn read_turn_words(content: &[u8], networks: u8) -> Result<Option<Turn>, Cause>
    ensures { result ≡ turn_words_say networks (words content.now) }
{
    match split_word(content) {
        None => Ok(None),
        Some((b"turn", rest)) => read_turn(rest, networks).map(Some),
        Some(_) => Err(Cause::UnknownWord),
    }
}

// The turn of a line in a list of turns; of an empty line, none.
pub(crate) fn read_turn_line(line: &[u8], networks: u8) -> Result<Option<Turn>, Cause>
    ensures { result ≡ turn_line_says networks line.now }
{
    read_turn_words(plain_content(line)?, networks)
}
