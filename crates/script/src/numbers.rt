// Numbers in a script: words of digits.
ghost use Rattle.std.specs.Prelude.{◌≡◌, ◌+◌, ◌*◌};
ghost use Rattle.std.specs.Option.{ok_or, option_map};
ghost use Rattle.script.specs.declared.cause.Cause.TheVariants.{NotANumber};
ghost use Rattle.script.specs.Digits.{capped, value as value_of};

use crate::cause::Cause;

// A number with one digit more, or 65535 where it is more.
fn with_digit(number: u16, digit: u8) -> u16
    ensures { result ≡ capped (number * 10 + digit) }
{
    number.saturating_mul(10).saturating_add(u16::from(digit))
}

// The number that a word of digits is; 65535 stands for all from there on. No limit is above it.
pub(crate) fn number(word: &[u8]) -> Result<u16, Cause>
    ensures { result ≡ ok_or (option_map capped (value_of word.now)) NotANumber }
{
    let mut number = 0;
    for byte in word {
        if !byte.is_ascii_digit() {
            return Err(Cause::NotANumber);
        }
        number = with_digit(number, *byte - b'0');
    }
    Ok(number)
}
