//! Bytes that were read and are not yet taken.
ghost use Rattle.std.specs.Prelude.{◌≡◌, ◌<◌, ◌≤◌, [], length, drop, take, IfOk};
ghost use Rattle.std.specs.Io.KnownBytes.{IsAtEnd};
ghost use Rattle.village_box.specs.declared.inbox.TheConstants.{BUFFER};
ghost use Rattle.village_box.specs.Inboxes.{Gained, ReadBehind, Sound, left};

use std::alloc::{AllocError, Global};
use std::io;
use std::io::Read;

// How many bytes the buffer has. A thing has at most 69.
const BUFFER: usize = 65536;

/// Of the buffer those from `start` to `end`.
#[derive(Drop)]
pub(crate) struct Inbox {
    bytes: Vec<u8>,
    start: usize,
    end: usize,
}

// Reads into what stands behind the first bytes of a buffer.
fn read_behind<R: Read>(input: &mut R, buffer: &mut [u8], end: usize) -> io::Result<usize>
    requires { end ≤ length buffer.old }
    ensures len { length buffer.new ≡ length buffer.old }
    ensures front { take end buffer.new ≡ take end buffer.old }
    ensures bytes { ReadBehind (R.remaining input.old) (R.remaining input.new)
        end buffer.old buffer.new result }
{
    input.read(&mut buffer[end..])
}

impl Inbox {
    /// A buffer that holds nothing.
    pub(crate) fn new(heap: Global) -> Result<Inbox, AllocError>
        ensures { IfOk result (λ b. Sound b × (left b ≡ [])) }
    {
        Ok(Inbox {
            bytes: vec![in heap; 0; BUFFER]?,
            start: 0,
            end: 0,
        })
    }

    /// What is left.
    pub(crate) fn left(&self) -> &[u8]
        requires { Sound self.now }
        ensures { result.now ≡ left self.now }
    {
        &self.bytes[self.start..self.end]
    }

    /// Takes so many bytes from the front.
    #[tactic(auto, using(crate::proofs::Buffers::fewer))]
    pub(crate) fn pass(&mut self, taken: usize)
        requires sound { Sound self.old }
        requires there { taken ≤ length (left self.old) }
        ensures sound { Sound self.new }
        ensures left { left self.new ≡ drop taken (left self.old) }
    {
        self.start += taken;
    }

    // Moves what is left to the front of the buffer.
    fn shift(&mut self)
        requires { Sound self.old }
        ensures sound { Sound self.new }
        ensures front { self.new.start ≡ 0 }
        ensures left { left self.new ≡ left self.old }
    {
        self.bytes.copy_within(self.start..self.end, 0);
        self.end -= self.start;
        self.start = 0;
    }

    /// Reads more behind what is left: how many bytes came, none at the end of the input.
    pub(crate) fn read<R: Read>(&mut self, input: &mut R) -> io::Result<usize>
        requires { Sound self.old }
        ensures sound { Sound self.new }
        ensures gained { Gained
            (left self.old) (R.remaining input.old) (left self.new) (R.remaining input.new) }
        ensures ended { IfOk result (λ n.
            n ≡ 0 → length (left self.old) < BUFFER → IsAtEnd (R.remaining input.new)) }
    {
        self.shift();
        let count = read_behind(input, &mut self.bytes, self.end)?;
        self.end += count;
        Ok(count)
    }
}
