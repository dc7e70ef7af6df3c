//! settle TIES: says whether ties are sound. settle TIES BLOCKS LINES: prints the stable routing for each block.
#![tactic(auto)]

use console::{inputs, print, status, words};
use settling::{Failure, Told, check, settle};
use std::process::ExitCode;

const USAGE: &str = "usage: settle TIES [BLOCKS LINES]   (--help says more)";

const HELP: &str = "usage: settle TIES
       settle TIES BLOCKS LINES
Says whether a ties file is sound; where it is not, what is wrong and where.
With BLOCKS and LINES it prints what every network goes by for each block, once
all have told and heard everything. TIES, BLOCKS and LINES are files; one of
them may be -, standard input.

A ties file is bytes: 16, n, the number of ties (high byte first), and for each
two networks and a kind: 1, the first is the second's customer; 2, peers. Ties
stand in rising order of the first and then the second number; of peers the
lower number stands first. There are 1 to 64 networks, numbered from 0.

A block file is bytes: 17, the number of blocks (high byte first), and for each
the first and the last address (four bytes each) and the home. Blocks stand in
rising order of the first address, and no two overlap; the first is block 0.

LINES is text with one command to a line; what follows # is a comment. At first
every line is down.
  turn I J up     the line of I and J comes up
  turn I J down   it goes down

A network goes by its own home, by a neighbour over a road, or by nothing:
  unpaid          some way of lines that are up leads to the home
  cut off         none does

Words:
  network  a village's box, with a number from 0
  tie      between two networks: one is the other's customer and that one its
           provider, or they are peers; a neighbour is a network that is tied
  ring     of customers: each a customer of the next, the last of the first
  line     joins two tied networks; it is up or down
  block    addresses with one home, a network
  road     the networks on the way to the home, the next one first
  way      of lines: one after the other, from a network to the home
  paid     a road up to providers, then at most once over to a peer, then down
           to customers; no network goes by another

A fault has a number and a place: ties at head, tie K from 0 or end; blocks at
head, block K from 0 or end; line K from 1.
   1  unknown kind; bad length: cut short, or bytes past the end; in LINES a
      word that says nothing there; a word that is no number
   2  a network not below n; n of 0 or above 64
   3  ties not in rising order; two ties of one pair; peers with the higher
      number first; a network tied to itself; blocks not in rising order; first
      above last; more than 256 blocks
   4  blocks that overlap
   5  a ring of customers
  10  no line between these networks
";

fn run(rt: &HostRuntime) -> Result<(), Failure> {
    let words = words(rt)?;
    match words.as_slice() {
        [word] if word.as_str() == "--help" => print(rt, HELP),
        [ties] => check(rt, ties.as_str()),
        [ties, blocks, lines] if inputs(&words) < 2 => {
            settle(rt, ties.as_str(), blocks.as_str(), lines.as_str())
        }
        _ => Err(Failure::Usage(USAGE)),
    }
}

fn main(rt: HostRuntime) -> ExitCode {
    status(&rt, "settle", run(&rt).map_err(Told))
}
