// The blocks of addresses, as they are lent: the first and the last address of each.
ghost use Rattle.std.specs.Prelude.{◌≡◌, nat_le};
ghost use Rattle.blocks.specs.Ranges.{Orderly};

use text::Address;

/// The addresses of a list of blocks, lent for look-up.
#[derive(Clone, Copy)]
pub struct Blocks<'a> {
    pub(crate) firsts: &'a [u32],
    pub(crate) lasts: &'a [u32],
    ghost orderly: { Orderly firsts.now lasts.now },
}

impl Blocks<'_> {
    ghost use Rattle.std.specs.Prelude.{◌<◌, length, MatchOption, slice_index};
    ghost use Rattle.blocks.specs.Ranges.{Begun, NoneHolds, OnlyHolds, block_at};
    ghost use Rattle.blocks.specs.Shown.{lent_firsts, lent_lasts};

    /// The block that holds an address, found by halving; none if no block does.
    #[tactic(auto, using(crate::proofs::Found::falls_short, crate::proofs::Found::goes_as_far))]
    pub fn find(&self, address: Address) -> Option<u16>
        ensures block { result ≡ block_at (lent_firsts self.now) (lent_lasts self.now) address.0 }
        ensures one { MatchOption result
            (NoneHolds (lent_firsts self.now) (lent_lasts self.now) address.0)
            (OnlyHolds (lent_firsts self.now) (lent_lasts self.now) address.0) }
    {
        let block = self.begun(address.0).checked_sub(1)?;
        if !self.reaches(block, address.0) {
            return None;
        }
        Some(block as u16)
    }

    // How many blocks begin at an address or below it.
    fn begun(&self, address: u32) -> usize
        ensures { Begun (lent_firsts self.now) address result }
    {
        self.firsts.partition_point(|first| begins(*first, address))
    }

    // Whether a block goes as far as an address.
    fn reaches(&self, block: usize, address: u32) -> bool
        requires { block < length (lent_lasts self.now) }
        ensures { result ≡ nat_le address (slice_index (lent_lasts self.now) block) }
    {
        address <= self.lasts[block]
    }
}

// Whether a block with this first address begins at an address or below it.
fn begins(first: u32, address: u32) -> bool
    ensures { result ≡ nat_le first address }
{
    first <= address
}
