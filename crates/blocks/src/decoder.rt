// Reading a block file.
ghost use Rattle.std.specs.Prelude.{◌≡◌, ◌+◌, ◌*◌, ◌≤◌, OnOk};
ghost use Rattle.wire.specs.Reading.{input, place};
ghost use Rattle.blocks.specs.declared.block_list.methods.TheConstants.{MOST};
ghost use Rattle.blocks.specs.File.{count as count_in};
ghost use Rattle.blocks.specs.Outcome.{BlocksRead, LowestTold, Read};

use crate::block_list::BlockList;
use crate::refusal::{Place, Refusal};
use crate::thing::{read_block, read_end, read_head};
use std::alloc::Global;
use text::Fault;
use wire::Reader;

// The blocks after the head.
fn read_blocks(
    reader: &mut Reader,
    count: u16,
    networks: u8,
    heap: Global,
) -> Result<BlockList, Refusal>
    requires start { place reader.old ≡ 3 }
    requires count { count ≡ count_in (input reader.old) }
    requires few { count ≤ MOST }
    ensures source { input reader.new ≡ input reader.old }
    ensures place { OnOk result (place reader.new ≡ 3 + 9 * count) }
    ensures answer { BlocksRead networks (input reader.old) result }
{
    let mut blocks = BlockList::new(heap);
    for k in 0..count {
        let block = read_block(reader, networks).map_err(|cause| Refusal::Fault(Fault {
            place: Place::Block(k),
            cause,
        }))?;
        if let Err(unfit) = blocks.push(block) {
            return Err(Refusal::at_block(k, unfit));
        }
    }
    Ok(blocks)
}

/// The blocks that a block file says, where there are so many networks, and the caller allows `most` blocks. Any other bytes are
/// refused at the first thing with a fault, with the lowest of its faults.
pub fn read(bytes: &[u8], networks: u8, most: u16, heap: Global) -> Result<BlockList, Refusal>
    ensures answer { Read networks most bytes.now result }
    ensures lowest { LowestTold networks most bytes.now result }
{
    let mut reader = Reader::new(bytes);
    let count = read_head(&mut reader, most).map_err(|cause| Refusal::Fault(Fault {
        place: Place::Head,
        cause,
    }))?;
    let blocks = read_blocks(&mut reader, count, networks, heap)?;
    read_end(&reader).map_err(|cause| Refusal::Fault(Fault {
        place: Place::End,
        cause,
    }))?;
    Ok(blocks)
}
