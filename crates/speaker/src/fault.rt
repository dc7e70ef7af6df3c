// Why a box refuses a message.
ghost use Rattle.std.specs.Prelude.{◌≡◌, Some};
ghost use Rattle.model.specs.Hearing.{number as number_in_links};
ghost use Rattle.speaker.specs.Number.{number};
ghost use Rattle.speaker.specs.Words.{fault_words, words_in_links};

use messages::Cause;
use std::fmt;
use text::Numbered;

/// Why a message is refused. Of several the one with the lowest number is told.
#[derive(Clone, Copy, Debug, PartialEq, Eq)]
pub enum Fault {
    /// the router refuses what it hears
    Router(model::Fault),
    /// a turn of a line that is not the one to the network that tells it
    LineOfOthers,
    /// the bytes are no message
    NotAMessage(Cause),
}

impl Numbered for Fault {
    ghost number_of = { number };

    fn number(&self) -> u8 {
        match self {
            Fault::Router(fault) => router_number(*fault),
            Fault::LineOfOthers => 6,
            Fault::NotAMessage(cause) => cause.number(),
        }
    }
}

// The number of a fault of the router.
fn router_number(fault: model::Fault) -> u8
    ensures { result ≡ number_in_links fault }
{
    match fault {
        model::Fault::BadLength => 1,
        model::Fault::NoSuchNetwork | model::Fault::NoSuchBlock => 2,
        model::Fault::NotRelated | model::Fault::LinkDown => 6,
        model::Fault::WrongStart | model::Fault::WrongEnd => 7,
        model::Fault::Repeats => 8,
        model::Fault::NotValleyFree => 9,
        model::Fault::NoLink => 10,
    }
}

// A fault of the router in the villages' words.
fn router_words(fault: model::Fault) -> &'static str
    ensures { result.now ≡ words_in_links fault }
{
    match fault {
        model::Fault::BadLength => "bad length: 0 or above 64 networks",
        model::Fault::NoSuchNetwork => "a network not below n",
        model::Fault::NoSuchBlock => "no such block",
        model::Fault::NotRelated => "a network that isn't tied",
        model::Fault::LinkDown => "a line that is down",
        model::Fault::WrongStart => "a road that doesn't begin with the teller",
        model::Fault::WrongEnd => "a road that doesn't end with the block's home",
        model::Fault::Repeats => "a road that names a network twice",
        model::Fault::NotValleyFree => "a road that isn't paid",
        model::Fault::NoLink => "no line between these networks",
    }
}

impl fmt::Display for Fault {
    ghost output = { λ fault. Some (fault_words fault) };

    fn fmt<W: fmt::Write>(&self, f: &mut fmt::Formatter<W>) -> fmt::Result {
        match self {
            Fault::Router(fault) => f.write_str(router_words(*fault)),
            Fault::LineOfOthers => f.write_str("a line of others"),
            Fault::NotAMessage(cause) => write!(f, "{cause}"),
        }
    }
}
