// The kinds of messages, and their bytes.
ghost use Rattle.std.specs.Prelude.{◌≡◌};
ghost use Rattle.messages.specs.Kinds.{IsKindOf, number};

use crate::cause::Cause;

#[derive(Clone, Copy, Debug, PartialEq, Eq)]
pub(crate) enum Kind {
    // a network tells its way to a block
    Way,
    // it takes back what it told of a block
    Withdrawal,
    Packet,
    // a link comes up or goes down
    Turn,
}

impl TryFrom<u8> for Kind {
    type Error = Cause;

    ghost try_from_gives = { λ byte r. IsKindOf byte r };

    fn try_from(byte: u8) -> Result<Kind, Cause> {
        match byte {
            1 => Ok(Kind::Way),
            2 => Ok(Kind::Withdrawal),
            3 => Ok(Kind::Packet),
            4 => Ok(Kind::Turn),
            _ => Err(Cause::UnknownKind),
        }
    }
}

impl From<Kind> for u8 {
    ghost from_gives = { λ kind byte. byte ≡ number kind };

    fn from(kind: Kind) -> u8 {
        match kind {
            Kind::Way => 1,
            Kind::Withdrawal => 2,
            Kind::Packet => 3,
            Kind::Turn => 4,
        }
    }
}
