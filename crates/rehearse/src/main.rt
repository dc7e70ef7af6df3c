//! rehearse TIES BLOCKS SCRIPT: plays all networks in memory by a script.
#![tactic(auto)]

use console::{inputs, print, status, words};
use report::{Failure, rehearse};
use std::process::ExitCode;

const USAGE: &str = "usage: rehearse TIES BLOCKS SCRIPT   (--help says more)";

const HELP: &str = "usage: rehearse TIES BLOCKS SCRIPT
Plays all networks in memory by a script. TIES, BLOCKS and SCRIPT are files; one
of them may be -, standard input.

A script has one command to a line; what follows # is a comment.
  turn I J up     the line of I and J comes up: each tells the other anew
  turn I J down   it goes down, and what is in flight over it is lost
  send I ADDRESS  the people of network I send a packet to an address
  hear I J        network J hears the oldest thing in flight from I, an update
                  or a packet; a packet arrives, is dropped, or goes on
  rest            hears until nothing is in flight, the lowest pair I J first
  show B          shows what every network goes by for block B
An address is four numbers with dots between them, as 10.0.0.1. Where a packet
ends, and after how many steps, is printed when it comes.

A ties file is bytes: 16, n, the number of ties (high byte first), and for each
two networks and a kind: 1, the first is the second's customer; 2, peers.

A block file is bytes: 17, the number of blocks (high byte first), and for each
the first and the last address (four bytes each) and the home. Blocks stand in
rising order of the first address, and no two overlap; the first is block 0.

Words:
  network    a village's box, with a number from 0
  tie        between two networks: one is the other's customer and that one its
             provider, or they are peers
  line       joins two tied networks; it is up or down, and at first it is down
  block      addresses with one home, a network
  update     what one network tells another of a block: a way, or nothing more
  way        the road by which the one that tells it reaches the block
  road       the networks on the way to the home, the next one first
  in flight  told or handed on over a line, and not yet heard
  step       a packet handed on by one network to the next; it has 255 at first

A fault has a number and a place: ties at head, tie K or end; blocks at head,
block K or end; line K.
   1  unknown kind, bad length; a word that says nothing there, or is no number
      or no address
   2  a network not below n, n of 0 or above 64; a block that there is not
   3  ties out of order, of one pair, of peers turned, of a network with itself;
      blocks out of order, with first above last, or more than 256
   4  blocks that overlap
   5  a ring of customers
   6  nothing is in flight
  10  no line between these networks
  11  more than 16 networks, 64 blocks or 4096 updates in flight
";

fn run(rt: &HostRuntime) -> Result<(), Failure> {
    let words = words(rt)?;
    match words.as_slice() {
        [word] if word.as_str() == "--help" => print(rt, HELP),
        [ties, blocks, script] if inputs(&words) < 2 => {
            rehearse(rt, ties.as_str(), blocks.as_str(), script.as_str())
        }
        _ => Err(Failure::Usage(USAGE)),
    }
}

fn main(rt: HostRuntime) -> ExitCode {
    status(&rt, "rehearse", run(&rt))
}
