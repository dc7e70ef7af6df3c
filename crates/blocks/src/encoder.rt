// Writing a block file.
ghost use Rattle.std.specs.Prelude.{◌≡◌, ◌/◌, ◌%◌, [], ◌∷◌, ◌++◌, IfOk, OnOk, vec_items};
ghost use Rattle.blocks.specs.declared.encoder.TheConstants.{BLOCKS};
ghost use Rattle.blocks.specs.Encoding.{bytes_of, file_of};

use crate::block_list::{Block, BlockList};
use std::alloc::{AllocError, Global};

/// The first byte of a block file.
pub const BLOCKS: u8 = 17;

// The first three bytes of a file with so many blocks.
fn head(blocks: u16) -> [u8; 3]
    ensures { result ≡ BLOCKS ∷ blocks / 256 ∷ blocks % 256 ∷ [] }
{
    let [high, low] = blocks.to_be_bytes();
    [BLOCKS, high, low]
}

// One block.
fn push_block(out: &mut Vec<u8>, block: Block) -> Result<(), AllocError>
    ensures { OnOk result (out.new.items ≡ out.old.items ++
        bytes_of block.first.0 block.last.0 block.home) }
{
    out.extend_from_slice(&block.first.0.to_be_bytes())?;
    out.extend_from_slice(&block.last.0.to_be_bytes())?;
    out.push(block.home)?;
    Ok(())
}

/// The block file of a list of blocks; it reads back as that list.
#[tactic(auto, using(crate::proofs::Written::listing_none, crate::proofs::Written::listing_more))]
pub fn encode(blocks: &BlockList, heap: Global) -> Result<Vec<u8>, AllocError>
    ensures { IfOk result (λ v. v.items ≡ file_of blocks.now) }
{
    let mut out = Vec::new(heap);
    out.extend_from_slice(&head(blocks.len()))?;
    // a `for`, since each write may fail
    for block in 0..blocks.len() {
        push_block(&mut out, blocks.at(block))?;
    }
    Ok(out)
}
