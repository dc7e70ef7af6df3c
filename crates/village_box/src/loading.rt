//! What the program is given: the files of the village, and its number.
use crate::refused::{Failure, Refused, Word, not_made};
use crate::village::Village;
use console::read_file;
use relations::MOST as MOST_NETWORKS;
use script::{Cause, read_network};
use text::Fault;

// The network that the third word names.
fn read_number(word: &str, networks: u8) -> Result<u8, Failure> {
    if word.is_empty() {
        return Err(Failure::Usage(crate::USAGE));
    }
    read_network(word.as_bytes(), networks).map_err(|cause| match cause {
        Cause::NotANumber => Failure::Usage(crate::USAGE),
        cause => Failure::Refused(Refused::Number(Fault {
            place: Word(3),
            cause,
        })),
    })
}

/// A village as it begins: the ties are read first, then the blocks, then its number.
pub(crate) fn set_up(
    rt: &HostRuntime,
    ties: &str,
    blocks: &str,
    number: &str,
) -> Result<Village, Failure> {
    let heap = rt.alloc();
    let ties = read_file(rt, ties)?;
    let relations = ties::read(&ties, MOST_NETWORKS, heap)
        .map_err(Refused::Ties)
        .map_err(Failure::Refused)?;
    let networks = relations.networks();
    let file = read_file(rt, blocks)?;
    let blocks = blocks::read(&file, networks, blocks::MOST, heap)
        .map_err(Refused::Blocks)
        .map_err(Failure::Refused)?;
    let number = read_number(number, networks)?;
    Village::new(heap, relations, blocks, number).map_err(not_made)
}
