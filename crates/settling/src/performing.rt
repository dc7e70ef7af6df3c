//! Ties are checked, and stable routings printed.
use crate::refused::{Failure, Refused};
use blocks::{BlockList, MOST as MOST_BLOCKS};
use console::{print, println, read};
use lines::read_links;
use relations::{MOST as MOST_NETWORKS, Relations};
use routes::{Account, BlockLine};
use selection::World;
use ties::Summary;

// The relations of a ties file.
fn load_ties(rt: &HostRuntime, path: &str) -> Result<Relations, Failure> {
    let bytes = read(rt, path)?;
    ties::read(bytes.as_slice(), MOST_NETWORKS, rt.alloc())
        .map_err(Refused::Ties)
        .map_err(Failure::Refused)
}

// The blocks of a block file, where there are so many networks.
fn load_blocks(rt: &HostRuntime, path: &str, networks: u8) -> Result<BlockList, Failure> {
    let bytes = read(rt, path)?;
    blocks::read(bytes.as_slice(), networks, MOST_BLOCKS, rt.alloc())
        .map_err(Refused::Blocks)
        .map_err(Failure::Refused)
}

/// Prints what a sound ties file holds.
pub fn check(rt: &HostRuntime, ties: &str) -> Result<(), Failure> {
    println(rt, Summary(&load_ties(rt, ties)?))
}

/// Prints the stable routing of each block. The ties are read first, then the blocks, then the lines; nothing is printed
/// before all is read.
pub fn settle(rt: &HostRuntime, ties: &str, blocks: &str, lines: &str) -> Result<(), Failure> {
    let heap = rt.alloc();
    let relations = load_ties(rt, ties)?;
    let blocks = load_blocks(rt, blocks, relations.networks())?;
    let lines = read(rt, lines)?;
    let links = read_links(lines.as_slice(), &relations)
        .map_err(Refused::Lines)
        .map_err(Failure::Refused)?;
    let world = World {
        relations: &relations,
        homes: blocks.homes(),
    };
    for number in 0..blocks.len() {
        if let Some(block) = blocks.block(number) {
            let line = BlockLine::new(number, block);
            print(rt, Account::new(world, &links, line, heap)?)?;
        }
    }
    Ok(())
}
