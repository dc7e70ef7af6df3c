// Telling blocks to neighbours.
ghost use Rattle.std.specs.Prelude.{◌≡◌, ◌+◌, ◌*◌, ◌<◌, ◌≤◌, ◌++◌, vec_len, vec_capacity};
ghost use Rattle.links.specs.Held.{audiences_of, blocks_of};
ghost use Rattle.messages.specs.Places.{most_bytes, most_networks};
ghost use Rattle.messages.specs.Writing.{update_written};
ghost use Rattle.selection.specs.Paths.{row};
ghost use Rattle.selection.specs.Sets.{member};
ghost use Rattle.speaker.specs.Bytes.{most_of_block};
ghost use Rattle.speaker.specs.Telling.{telling, tellings_of, whom};

use links::Tables;
use selection::NetworkSet;

// Writes what was told a neighbour last of a block, where there is room for it. Not part of the loop over all
// neighbours, of which few are to be told.
#[inline(never)]
#[tactic(auto, using(crate::proofs::Sizes::update_most))]
fn tell_one(tables: &Tables, block: u16, to: u8, out: &mut Vec<u8>)
    requires { vec_len out.old + most_bytes ≤ vec_capacity out.old }
    ensures items { out.new.items
        ≡ out.old.items ++ update_written to block (row tables.now.advertised block to) }
    ensures len { vec_len out.new ≤ vec_len out.old + most_bytes }
    ensures capacity { vec_capacity out.old ≤ vec_capacity out.new }
{
    messages::write_update(out, to, block, tables.told(block, to)).unwrap();
}

// Tells a block to those who are to be told, in the order of their numbers.
#[inline(never)]
pub(crate) fn tell(
    tables: &Tables,
    networks: u8,
    block: u16,
    audience: NetworkSet,
    out: &mut Vec<u8>,
)
    requires { vec_len out.old + most_bytes * networks ≤ vec_capacity out.old }
    ensures items { out.new.items ≡ out.old.items
        ++ telling block (member audience) (row tables.now.advertised block) networks }
    ensures len { vec_len out.new ≤ vec_len out.old + most_bytes * networks }
    ensures capacity { vec_capacity out.old ≤ vec_capacity out.new }
{
    for to in 0..networks {
        if audience.contains(to) {
            tell_one(tables, block, to, out);
        }
    }
}

// Tells a block to those who were to be told of it when a link turned last.
fn tell_block(tables: &Tables, networks: u8, block: u16, out: &mut Vec<u8>)
    requires there { block < blocks_of tables.now }
    requires room { vec_len out.old + most_bytes * networks ≤ vec_capacity out.old }
    ensures items { out.new.items ≡ out.old.items
        ++ telling block (whom (audiences_of tables.now) block) (row tables.now.advertised block) networks }
    ensures len { vec_len out.new ≤ vec_len out.old + most_bytes * networks }
    ensures capacity { vec_capacity out.old ≤ vec_capacity out.new }
{
    if let Some(audience) = tables.audience(block) {
        tell(tables, networks, block, audience, out);
    }
}

// Tells every block, block by block.
pub(crate) fn tell_all(tables: &Tables, networks: u8, out: &mut Vec<u8>)
    requires few { networks ≤ most_networks }
    requires room { vec_len out.old + most_of_block * blocks_of tables.now
        ≤ vec_capacity out.old }
    ensures items { out.new.items ≡ out.old.items
        ++ tellings_of (audiences_of tables.now) (row tables.now.advertised) networks
        (blocks_of tables.now) }
    ensures len { vec_len out.new ≤ vec_len out.old + most_of_block * blocks_of tables.now }
    ensures capacity { vec_capacity out.old ≤ vec_capacity out.new }
{
    for block in 0..tables.blocks() {
        tell_block(tables, networks, block, out);
    }
}
