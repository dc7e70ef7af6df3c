// The parts of a line.
ghost use Rattle.std.specs.Prelude.{◌≡◌, true, false, [], ◌∷◌, Some, None, MatchResult, is_some, slice_get};
ghost use Rattle.model.specs.Checks.{first_fault};
ghost use Rattle.script.specs.declared.cause.Cause.TheVariants.{BadByte, MissingWord, SurplusWord, UnknownWord};
ghost use Rattle.script.specs.Digits.{value};
ghost use Rattle.script.specs.Faults.{is_plain as plain_byte, pair_checks, plain, standing};
ghost use Rattle.script.specs.Parts.{content as content_of, words};

use crate::cause::Cause;
use crate::cut::{content, is_blank, split_word};
use crate::naming::network;
use crate::numbers::number;

// Blank or printable.
fn is_plain(byte: u8) -> bool
    ensures { result ≡ plain_byte byte }
{
    is_blank(byte) || byte.is_ascii_graphic()
}

// Whether every byte is blank or printable.
fn all_plain(content: &[u8]) -> bool
    ensures { result ≡ plain content.now }
{
    content.iter().all(|byte| is_plain(*byte))
}

// What counts in a line, if every byte of it is blank or printable.
pub(crate) fn plain_content(line: &[u8]) -> Result<&[u8], Cause>
    ensures { MatchResult result
        (λ text. (text.now ≡ content_of line.now) × (plain (content_of line.now) ≡ true))
        (λ c. (c ≡ BadByte) × (plain (content_of line.now) ≡ false)) }
{
    let content = content(line);
    if !all_plain(content) {
        return Err(Cause::BadByte);
    }
    Ok(content)
}

// A word that has to be there, and what follows it.
pub(crate) fn next_word(rest: &[u8]) -> Result<(&[u8], &[u8]), Cause>
    ensures { MatchResult result (λ p. words rest.now ≡ p.0.now ∷ words p.1.now)
        (λ c. (c ≡ MissingWord) × (words rest.now ≡ [])) }
{
    split_word(rest).ok_or(Cause::MissingWord)
}

// No word is left.
pub(crate) fn no_more(rest: &[u8]) -> Result<(), Cause>
    ensures { MatchResult result (λ _. words rest.now ≡ [])
        (λ c. (c ≡ SurplusWord) × (is_some (slice_get (words rest.now) 0) ≡ true)) }
{
    match split_word(rest) {
        Some(_) => Err(Cause::SurplusWord),
        None => Ok(()),
    }
}

// Whether a link is said to be up, or down.
pub(crate) fn standing_of(word: &[u8]) -> Result<bool, Cause>
    ensures { MatchResult result (λ up. standing word.now ≡ Some up)
        (λ c. (c ≡ UnknownWord) × (standing word.now ≡ None)) }
{
    match word {
        b"up" => Ok(true),
        b"down" => Ok(false),
        _ => Err(Cause::UnknownWord),
    }
}

// The numbers of two networks.
pub(crate) fn pair(first: &[u8], second: &[u8], networks: u8) -> Result<(u8, u8), Cause>
    ensures { let checks = pair_checks networks (Some first.now) (Some second.now) in
        MatchResult result (λ p. (first_fault checks ≡ None) × (value first.now ≡ Some p.0)
        × (value second.now ≡ Some p.1)) (λ c. first_fault checks ≡ Some c) }
{
    let first = number(first)?;
    let second = number(second)?;
    let first = network(first, networks)?;
    let second = network(second, networks)?;
    Ok((first, second))
}
