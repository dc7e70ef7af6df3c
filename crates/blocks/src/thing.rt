// One thing of a block file: its head, a block, or its end.
ghost use Rattle.std.specs.Prelude.{◌≡◌, ◌+◌, ◌*◌, Some, None, MatchResult};
ghost use Rattle.model.specs.Checks.{first_fault};
ghost use Rattle.wire.specs.Reading.{input, place};
ghost use Rattle.blocks.specs.File.{count as count_in};
ghost use Rattle.blocks.specs.Faults.{end_checks, head_checks};
ghost use Rattle.blocks.specs.Steps.{BlockRead, HeadRead, bytes_checks};

use crate::block_list::{Block, MOST};
use crate::encoder::BLOCKS;
use crate::refusal::Cause;
use text::Address;
use wire::Reader;

// How many blocks follow, where the caller allows `most`. Each answer of the reader is taken apart by `let .. else`: of the
// forms asked for in docs/DECISIONS.md, that is the one for this place.
pub(crate) fn read_head(reader: &mut Reader, most: u16) -> Result<u16, Cause>
    requires { place reader.old ≡ 0 }
    ensures source { input reader.new ≡ input reader.old }
    ensures cases { MatchResult result (HeadRead most reader.old reader.new)
        (λ c. first_fault (head_checks most (input reader.old)) ≡ Some c) }
{
    let Some(kind) = reader.byte() else {
        return Err(Cause::Cut);
    };
    if kind != BLOCKS {
        return Err(Cause::UnknownKind);
    }
    let Some(count) = reader.word() else {
        return Err(Cause::Cut);
    };
    if count > MOST {
        return Err(Cause::TooMany);
    }
    if count > most {
        return Err(Cause::TooManyRehearsed);
    }
    Ok(count)
}

// The next block, where there are so many networks. By `let .. else`, as `read_head`.
pub(crate) fn read_block(reader: &mut Reader, networks: u8) -> Result<Block, Cause>
    ensures source { input reader.new ≡ input reader.old }
    ensures cases { MatchResult result (BlockRead networks reader.old reader.new)
        (λ c. first_fault (bytes_checks networks (input reader.old) (place reader.old)) ≡ Some c) }
{
    let Some(first) = reader.long() else {
        return Err(Cause::Cut);
    };
    let Some(last) = reader.long() else {
        return Err(Cause::Cut);
    };
    let Some(home) = reader.byte() else {
        return Err(Cause::Cut);
    };
    if home >= networks {
        return Err(Cause::NoSuchNetwork);
    }
    Ok(Block {
        first: Address(first),
        last: Address(last),
        home,
    })
}

// Whether the file ends with the last block.
pub(crate) fn read_end(reader: &Reader) -> Result<(), Cause>
    requires { place reader.now ≡ 3 + 9 * count_in (input reader.now) }
    ensures { let checks = end_checks (input reader.now) in
        MatchResult result (λ _. first_fault checks ≡ None) (λ c. first_fault checks ≡ Some c) }
{
    if !reader.at_end() {
        return Err(Cause::Surplus);
    }
    Ok(())
}
