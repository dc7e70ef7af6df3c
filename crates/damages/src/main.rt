//! damages TIES BLOCKS: gives boxes the messages on standard input, most of them damaged, and says of each how many bytes
//! it has and what is written, or which fault it has.
//!
//! A line is a word, the bytes of a message in hex, or `-` for none, and what it is. `network N` starts the box of network
//! N, with every line down; of `keep` the box goes on from what it then holds, and `try` is made on a copy of it.
#![tactic(auto)]

mod hex;
mod village;

use crate::hex::{Hex, bytes_of};
use crate::village::{Ground, Village};
use anyhow::anyhow;
use speaker::Refusal;
use std::env;
use std::process::ExitCode;
use text::Numbered;

// Tells what became of a message.
fn tell(rt: &HostRuntime, answered: Result<usize, Refusal>, written: &[u8]) -> anyhow::Result<()> {
    match answered {
        Ok(length) => println!(rt; "takes {length} bytes, writes {}", Hex(written))?,
        Err(
            Refusal::Fault {
                fault,
                length: Some(length),
            },
        ) => println!(rt; "fault {} of {length} bytes: {fault}", fault.number())?,
        Err(
            Refusal::Fault {
                fault,
                length: None,
            },
        ) => println!(rt; "fault {}: {fault}", fault.number())?,
        Err(Refusal::Memory) => println!(rt; "out of memory")?,
    }
    Ok(())
}

// Gives a box a message, and tells what became of it.
fn give(
    rt: &HostRuntime,
    ground: &Ground,
    village: &mut Village,
    message: &[u8],
) -> anyhow::Result<()> {
    let mut written = Vec::new(rt.alloc());
    let answered = village.take(ground, message, &mut written);
    tell(rt, answered, written.as_slice())
}

// Does what a line asks for; a line that asks for nothing is passed over.
fn follow(
    rt: &HostRuntime,
    ground: &Ground,
    village: &mut Village,
    line: &str,
) -> anyhow::Result<()> {
    let mut words = line.split_whitespace();
    let (Some(word), Some(of)) = (words.next(), words.next()) else {
        return Ok(());
    };
    match word {
        "network" => {
            *village = Village::new(ground, of.parse()?, rt.alloc())?;
            println!(rt; "network {of}")?;
        }
        "keep" => give(rt, ground, village, bytes_of(of, rt.alloc())?.as_slice())?,
        "try" => {
            let mut copy = village.clone()?;
            give(rt, ground, &mut copy, bytes_of(of, rt.alloc())?.as_slice())?;
        }
        _ => {}
    }
    Ok(())
}

fn run(rt: &HostRuntime) -> anyhow::Result<()> {
    let words: Vec<String> = env::args(rt)?.skip(1).collect(rt.alloc())?;
    let [ties, blocks] = words.as_slice() else {
        return Err(anyhow!("usage: damages TIES BLOCKS"));
    };
    let ground = Ground::load(rt, ties.as_str(), blocks.as_str())?;
    let mut village = Village::new(&ground, 0, rt.alloc())?;
    for line in rt.lines(rt.alloc()) {
        follow(rt, &ground, &mut village, line?.as_str())?;
    }
    Ok(())
}

fn main(rt: HostRuntime) -> ExitCode {
    match run(&rt) {
        Ok(()) => ExitCode::SUCCESS,
        Err(error) => {
            let _ = eprintln!(rt; "damages: {error}");
            ExitCode::FAILURE
        }
    }
}
