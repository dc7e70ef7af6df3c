// A reader of bytes: what it has read, and how far it came, by which its contracts tell.
ghost use Rattle.std.specs.Prelude.{◌≡◌, length, MatchOption, nat_le};
ghost use Rattle.wire.specs.Reading.{ByteRead, Ended, LongRead, Short, WordRead, input, place};

/// Reads bytes one after the other. The bytes stay as they are; a reading that finds too few left reads nothing.
#[derive(Drop)]
pub struct Reader<'a> {
    bytes: &'a [u8],
    at: usize,
}

impl<'a> Reader<'a> {
    /// A reader that has read nothing yet.
    pub fn new(bytes: &'a [u8]) -> Reader<'a>
        ensures source { input result ≡ bytes.now }
        ensures start { place result ≡ 0 }
    {
        Reader { bytes, at: 0 }
    }

    /// The next byte. Where none is left, nothing is read.
    pub fn byte(&mut self) -> Option<u8>
        ensures source { input self.new ≡ input self.old }
        ensures cases { MatchOption result (Ended self.old self.new) (ByteRead self.old self.new) }
    {
        let byte = *self.bytes.get(self.at)?;
        self.at += 1;
        Some(byte)
    }

    /// The next two bytes as a number, high byte first. Where fewer are left, nothing is read.
    pub fn word(&mut self) -> Option<u16>
        ensures source { input self.new ≡ input self.old }
        ensures cases { MatchOption result (Short 2 self.old self.new)
            (WordRead self.old self.new) }
    {
        let high = *self.bytes.get(self.at)?;
        let low = *self.bytes.get(self.at + 1)?;
        self.at += 2;
        Some(u16::from_be_bytes([high, low]))
    }

    /// The next four bytes as a number, high byte first. Where fewer are left, nothing is read.
    pub fn long(&mut self) -> Option<u32>
        ensures source { input self.new ≡ input self.old }
        ensures cases { MatchOption result (Short 4 self.old self.new)
            (LongRead self.old self.new) }
    {
        let bytes = [
            *self.bytes.get(self.at)?,
            *self.bytes.get(self.at + 1)?,
            *self.bytes.get(self.at + 2)?,
            *self.bytes.get(self.at + 3)?,
        ];
        self.at += 4;
        Some(u32::from_be_bytes(bytes))
    }

    /// Whether every byte is read.
    pub fn at_end(&self) -> bool
        ensures { result ≡ nat_le (length (input self.now)) (place self.now) }
    {
        self.bytes.len() <= self.at
    }
}
