// Reading one line.
ghost use Rattle.std.specs.Prelude.{◌≡◌};
ghost use Rattle.script.specs.Faults.{hear, send, show, verb};
ghost use Rattle.script.specs.Meaning.{read_line as line_says, read_named as named_says, read_verb, read_words as words_say};
ghost use Rattle.script.specs.Parts.{words};

use crate::addresses::read_address;
use crate::cause::Cause;
use crate::command::{Command, Limits};
use crate::cut::split_word;
use crate::naming::network;
use crate::numbers::number;
use crate::parts::{next_word, no_more, pair, plain_content};
use crate::turns::read_turn;

// `hear I J`, behind the first word.
fn read_hear(rest: &[u8], limits: Limits) -> Result<Command, Cause>
    ensures { result ≡ read_verb limits hear (words rest.now) }
{
    let (from, rest) = next_word(rest)?;
    let (to, rest) = next_word(rest)?;
    no_more(rest)?;
    let (from, to) = pair(from, to, limits.networks)?;
    Ok(Command::Hear { from, to })
}

// `send I ADDRESS`, behind the first word.
fn read_send(rest: &[u8], limits: Limits) -> Result<Command, Cause>
    ensures { result ≡ read_verb limits send (words rest.now) }
{
    let (sender, rest) = next_word(rest)?;
    let (address, rest) = next_word(rest)?;
    no_more(rest)?;
    let sender = number(sender)?;
    let address = read_address(address)?;
    let network = network(sender, limits.networks)?;
    Ok(Command::Send { network, address })
}

// `show B`, behind the first word.
fn read_show(rest: &[u8], limits: Limits) -> Result<Command, Cause>
    ensures { result ≡ read_verb limits show (words rest.now) }
{
    let (block, rest) = next_word(rest)?;
    no_more(rest)?;
    let block = number(block)?;
    if block >= limits.blocks {
        return Err(Cause::NoSuchBlock);
    }
    Ok(Command::Show { block })
}

// The command of a first word and the rest.
fn read_named(name: &[u8], rest: &[u8], limits: Limits) -> Result<Command, Cause>
    ensures { result ≡ named_says limits (verb name.now) (words rest.now) }
{
    match name {
        b"turn" => read_turn(rest, limits.networks).map(Command::from),
        b"hear" => read_hear(rest, limits),
        b"send" => read_send(rest, limits),
        b"show" => read_show(rest, limits),
        b"rest" => {
            no_more(rest)?;
            Ok(Command::Rest)
        }
        _ => Err(Cause::UnknownWord),
    }
}

// The command that the words ask for; without a word, none.
fn read_words(content: &[u8], limits: Limits) -> Result<Option<Command>, Cause>
    ensures { result ≡ words_say limits (words content.now) }
{
    let Some((name, rest)) = split_word(content) else {
        return Ok(None);
    };
    read_named(name, rest, limits).map(Some)
}

// The command of a line; of an empty line, none.
pub(crate) fn read_line(line: &[u8], limits: Limits) -> Result<Option<Command>, Cause>
    ensures { result ≡ line_says limits line.now }
{
    read_words(plain_content(line)?, limits)
}
