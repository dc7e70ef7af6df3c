// Words that are addresses.
ghost use Rattle.std.specs.Prelude.{◌≡◌, [], ◌∷◌, Some, None, MatchResult};
ghost use Rattle.script.specs.declared.cause.Cause.TheVariants.{NotAnAddress};
ghost use Rattle.script.specs.Addresses.{address_read, between_dots, byte as byte_of_part, is_dot, joined};
ghost use Rattle.script.specs.Parts.{before, from};

use crate::cause::Cause;
use crate::cut::cut;
use crate::numbers::number;
use text::Address;

// The byte that a part is the number of.
fn byte(part: &[u8]) -> Result<u8, Cause>
    ensures { MatchResult result (λ b. byte_of_part part.now ≡ Some b)
        (λ c. (c ≡ NotAnAddress) × (byte_of_part part.now ≡ None)) }
{
    if part.is_empty() {
        return Err(Cause::NotAnAddress);
    }
    match number(part) {
        Ok(number) => u8::try_from(number).map_err(|_| Cause::NotAnAddress),
        Err(_) => Err(Cause::NotAnAddress),
    }
}

// What stands before the first dot, and the rest.
fn cut_dot(word: &[u8]) -> (&[u8], &[u8])
    ensures front { result.0.now ≡ before is_dot word.now }
    ensures back { result.1.now ≡ from is_dot word.now }
{
    cut(word, |byte| byte == b'.')
}

// The part before the first dot, and what follows that dot.
#[tactic(auto, using(crate::proofs::Dots::first_part, crate::proofs::Dots::only_part))]
fn next_part(word: &[u8]) -> Result<(&[u8], &[u8]), Cause>
    ensures { MatchResult result (λ p. between_dots word.now ≡ p.0.now ∷ between_dots p.1.now)
        (λ c. (c ≡ NotAnAddress) × (between_dots word.now ≡ word.now ∷ [])) }
{
    let (part, rest) = cut_dot(word);
    match rest.split_first() {
        Some((_dot, rest)) => Ok((part, rest)),
        None => Err(Cause::NotAnAddress),
    }
}

// The address of four bytes, the highest first.
fn join(first: u8, second: u8, third: u8, fourth: u8) -> Address
    ensures { result ≡ joined first second third fourth }
{
    Address(u32::from_be_bytes([first, second, third, fourth]))
}

/// The address that a word is: four numbers, each at most 255, with dots between them.
#[tactic(auto, using(crate::proofs::Dots::last_part))]
pub fn read_address(word: &[u8]) -> Result<Address, Cause>
    ensures { result ≡ address_read word.now }
{
    let (first, rest) = next_part(word)?;
    let (second, rest) = next_part(rest)?;
    let (third, fourth) = next_part(rest)?;
    let (first, second) = (byte(first)?, byte(second)?);
    let (third, fourth) = (byte(third)?, byte(fourth)?);
    Ok(join(first, second, third, fourth))
}
