//! Bytes in hex, two digits each; none is written `-`.
use std::alloc::{AllocError, Global};
use std::fmt;

/// Bytes, shown.
#[derive(Drop)]
pub(crate) struct Hex<'a>(pub(crate) &'a [u8]);

impl fmt::Display for Hex<'_> {
    fn fmt<W: fmt::Write>(&self, f: &mut fmt::Formatter<W>) -> fmt::Result {
        if self.0.is_empty() {
            return f.write_str("-");
        }
        for byte in self.0 {
            write!(f, "{byte:02x}")?;
        }
        Ok(())
    }
}

// The byte that two digits are.
fn byte(digits: &[u8]) -> Option<u8> {
    let [high, low] = digits else {
        return None;
    };
    let high = (*high as char).to_digit(16)?;
    let low = (*low as char).to_digit(16)?;
    Some((high * 16 + low) as u8)
}

/// The bytes of a word: those of its pairs of digits.
pub(crate) fn bytes_of(word: &str, heap: Global) -> Result<Vec<u8>, AllocError> {
    word.as_bytes().chunks(2).filter_map(byte).collect(heap)
}
