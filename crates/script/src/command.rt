// What a script can ask for.
ghost use Rattle.std.specs.Prelude.{◌≡◌};
ghost use Rattle.script.specs.Turns.{as_command};

use text::Address;

/// A command of a script; its numbers are below the limits that it was read with.
#[derive(Clone, Copy, Debug, PartialEq, Eq)]
pub enum Command {
    /// the link of two networks comes up or goes down
    Turn { first: u8, second: u8, up: bool },
    /// `to` hears the oldest thing in flight from `from`
    Hear { from: u8, to: u8 },
    /// the people of a network send a packet
    Send { network: u8, address: Address },
    /// it is shown what each network goes by for a block
    Show { block: u16 },
    /// everything that is in flight is heard
    Rest,
}

/// The link of two networks comes up or goes down.
#[derive(Clone, Copy, Debug, PartialEq, Eq)]
pub struct Turn {
    pub first: u8,
    pub second: u8,
    pub up: bool,
}

impl From<Turn> for Command {
    ghost from_gives = { λ turn command. command ≡ as_command turn };

    fn from(turn: Turn) -> Command {
        Command::Turn {
            first: turn.first,
            second: turn.second,
            up: turn.up,
        }
    }
}

/// The numbers of networks are below `networks`, those of blocks below `blocks`.
#[derive(Clone, Copy)]
pub struct Limits {
    pub networks: u8,
    pub blocks: u16,
}
