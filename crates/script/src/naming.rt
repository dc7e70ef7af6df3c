// Words that name a network.
ghost use Rattle.std.specs.Prelude.{◌≡◌, Some};
ghost use Rattle.script.specs.Networks.{below, network_named};

use crate::cause::Cause;
use crate::numbers::number;

// Of some networks the one with a number.
pub(crate) fn network(number: u16, networks: u8) -> Result<u8, Cause>
    ensures { result ≡ below networks (Some number) }
{
    match u8::try_from(number) {
        Ok(network) if network < networks => Ok(network),
        _ => Err(Cause::NoSuchNetwork),
    }
}

/// The network that a word of digits is the number of, if it is below `networks`.
pub fn read_network(word: &[u8], networks: u8) -> Result<u8, Cause>
    ensures { result ≡ network_named networks word.now }
{
    if word.is_empty() {
        return Err(Cause::NotANumber);
    }
    network(number(word)?, networks)
}
